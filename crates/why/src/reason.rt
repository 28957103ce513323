// The reason why a tick did or did not trip.
ghost use Rattle.std.specs.Prelude.{◌≡◌};
ghost use Rattle.why.specs.Reason.{delay_of};
ghost use Rattle.why.specs.device.Decided.{reason_by};

use phase::operation::{Kind, Timing};
use phase::settings::trip_level;
use phase::{PhaseState, Settings};

// In the order in which they are looked at. The two that something is lacking for carry how much.
#[derive(Clone, Copy, PartialEq, Eq)]
pub enum Reason {
    OperationOff,
    NotStarted,
    StartOnly,
    TooFewTicks(u32),
    SumBelowLevel(u64),
    Blocked,
    Tripped,
}

// The delay that the ticks running are held against. (A plan has it too: two lines, shorter than a public call for both.)
fn delay_of(timing: Timing, settings: Settings) -> u32
    ensures { result ≡ delay_of timing settings }
{
    match timing {
        Timing::Definite => settings.definite_delay,
        Timing::Curve(_) => settings.minimum_delay,
    }
}

// By the tick's start output and the state after it. Only a curve has a sum; where the phase trip is on, the block alone decides.
pub(crate) fn reason_by(
    kind: Kind,
    settings: Settings,
    start: bool,
    after: PhaseState,
    block: u8,
) -> Reason
    ensures { result ≡ reason_by kind settings start after block }
{
    let Kind::On(timing) = kind else {
        return Reason::OperationOff;
    };
    if !start {
        return Reason::NotStarted;
    }
    if settings.start_only == 1 {
        return Reason::StartOnly;
    }
    let delay = delay_of(timing, settings);
    if after.run < delay {
        return Reason::TooFewTicks(delay - after.run);
    }
    let level = trip_level(settings);
    match timing {
        Timing::Curve(_) if after.sum < level => Reason::SumBelowLevel(level - after.sum),
        _ if block == 1 => Reason::Blocked,
        _ => Reason::Tripped,
    }
}
