// What one tick adds to a phase's sum, or takes from it.
ghost use Rattle.std.specs.Prelude.{cond, ◌≡◌, ltb};
ghost use Rattle.curve.specs.Gain.{gain_of, loss_of};

use crate::rounding::quotient;
use crate::time::{operate_time, reset_time};

// The trip level at multiplier 1.00, which is 10^11, times the 1,000 microseconds of a tick: divided by a time it is what one
// tick adds or takes.
const TICK_SHARE: u64 = 100000000000000;

// What a tick changes a sum by at a ratio: its gain above 100, else its loss. One function for both, called from both, so that it
// stays a call: the loops of its quotients take no register from the loop over the ticks.
#[tactic(auto, using(crate::proofs::GainLaws::change_laws))]
fn change_of(operation: u32, ratio: u32) -> u64
    ensures { result ≡ cond (ltb 100 ratio) (gain_of operation ratio) (loss_of operation ratio) }
{
    let time = if 100 < ratio {
        operate_time(operation, ratio)
    } else {
        reset_time(operation, ratio)
    };
    quotient(TICK_SHARE, time)
}

// The gain of a started tick; 0 where the operation or the ratio has no operate time.
#[tactic(auto, using(crate::proofs::GainLaws::gain_zero_to_100))]
pub fn gain_of(operation: u32, ratio: u32) -> u64
    ensures { result ≡ gain_of operation ratio }
{
    if ratio <= 100 {
        return 0;
    }
    change_of(operation, ratio)
}

// The loss of an idle tick; 0 where the operation or the ratio has no reset time.
#[tactic(auto, using(crate::proofs::GainLaws::loss_zero_from_100))]
pub fn loss_of(operation: u32, ratio: u32) -> u64
    ensures { result ≡ loss_of operation ratio }
{
    if 100 <= ratio {
        return 0;
    }
    change_of(operation, ratio)
}
