// What the last sample does to a sum, remembered with the samples that do the same.
ghost use Rattle.std.specs.Prelude.{◌≡◌, ℕ, ◌*◌, ◌≤◌};
ghost use Rattle.plans.specs.device.Memo.{cap_ratio, samples_at, memo_at, memo_of};

use checks::in_range;
use phase::CheckedSettings;

// The first operation that is a curve: those before it have neither gain nor loss.
const FIRST_CURVE: u32 = 2;

// The first that is an ANSI curve: those before it have no loss.
const FIRST_ANSI: u32 = 6;

// The highest ratio without a gain.
const NO_GAIN: u32 = 100;

// The highest ratio that `ratio_of` gives.
const CAP_RATIO: u32 = 2000;

// No sample is larger.
pub(crate) const TOP_SAMPLE: u32 = u32::MAX;

// The gain and the loss of every sample from `from` to `to`.
#[derive(Clone, Copy)]
pub struct Memo {
    pub from: u32,
    pub to: u32,
    pub gain: u64,
    pub loss: u64,
}

// The first and the last sample that do what those of a ratio do, which is as many samples wide as the start current. Without a curve
// all samples do the same, and on an IEC curve all those without a gain. (By number, and no `Kind`: less than a kind is asked.)
fn samples_at(checked: CheckedSettings, ratio: u32) -> (u32, u32)
    requires { ratio ≤ cap_ratio }
    ensures { result ≡ samples_at checked.settings ratio }
{
    let operation = checked.settings.operation;
    let width = checked.settings.start_current;
    if operation < FIRST_CURVE {
        return (0, TOP_SAMPLE);
    }
    if (ratio <= NO_GAIN) & (operation < FIRST_ANSI) {
        return (0, (NO_GAIN + 1) * width - 1);
    }
    let from = ratio * width;
    if ratio < CAP_RATIO {
        (from, from + (width - 1))
    } else {
        (from, TOP_SAMPLE)
    }
}

fn memo_at(checked: CheckedSettings, ratio: u32, gain: u64, loss: u64) -> Memo
    requires { ratio ≤ cap_ratio }
    ensures { result ≡ memo_at checked.settings ratio gain loss }
{
    let (from, to) = samples_at(checked, ratio);
    Memo {
        from,
        to,
        gain,
        loss,
    }
}

// At the setting itself a sum neither gains nor loses: a memory to begin with that takes no working out.
pub(crate) fn memo_at_setting(checked: CheckedSettings) -> Memo
    ensures { result ≡ memo_of checked.settings (100 * checked.settings.start_current) }
{
    memo_at(checked, 100, 0, 0)
}

// Not by `pace_of`: the ratio is wanted too.
fn memo_of(checked: CheckedSettings, sample: u32) -> Memo
    ensures { result ≡ memo_of checked.settings sample }
{
    let operation = checked.settings.operation;
    let ratio = curve::ratio_of(sample, checked.settings.start_current);
    let gain = curve::gain_of(operation, ratio);
    let loss = curve::loss_of(operation, ratio);
    memo_at(checked, ratio, gain, loss)
}

pub(crate) fn next_memo(checked: CheckedSettings, last: Memo, sample: u32) -> Memo
    requires { (g : ℕ) × (last ≡ memo_of checked.settings g) }
    ensures { result ≡ memo_of checked.settings sample }
{
    if in_range(last.from, last.to, sample) {
        last
    } else {
        memo_of(checked, sample)
    }
}
