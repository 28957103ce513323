// The refusal numbers of the timers, and which of them a call gives.
ghost use Rattle.std.specs.Prelude.{◌≡◌};
ghost use Rattle.timer.specs.Refusals.{timer_refusal};

use crate::state::TimerState;
use checks::first_failed;

pub const INVALID_TIMER: u32 = 8;

pub const DELAY_TOO_LONG: u32 = 15;

// 0 for none, as `Timed` tells it.
pub(crate) fn refusal_of(state: TimerState, d: u32) -> u32
    ensures { result ≡ timer_refusal state d }
{
    let from15 = first_failed(d <= TimerState::DELAY_LIMIT, DELAY_TOO_LONG, 0);
    first_failed(
        state.count <= TimerState::COUNT_LIMIT,
        INVALID_TIMER,
        from15,
    )
}
