// What one sample does to a sum, worked out once for all the ticks that have it.
ghost use Rattle.std.specs.Prelude.{◌≡◌};
ghost use Rattle.phase.specs.device.Pace.{pace_of};

use crate::settings::Settings;

#[derive(Clone, Copy)]
pub struct Pace {
    pub sample: u32,
    pub gain: u64,
    pub loss: u64,
}

#[tactic(auto, unfolding(crate::specs::device::Pace::pace_of))]
pub fn pace_of(settings: Settings, sample: u32) -> Pace
    ensures { result ≡ pace_of settings sample }
{
    let operation = settings.operation;
    let ratio = curve::ratio_of(sample, settings.start_current);
    let gain = curve::gain_of(operation, ratio);
    let loss = curve::loss_of(operation, ratio);
    Pace { sample, gain, loss }
}
