// What a call answers: the refusal first, then the reset, then what the rule gives.
ghost use Rattle.std.specs.Prelude.{◌≡◌};
ghost use Rattle.timer.specs.Answer.{accepted, refused};
ghost use Rattle.timer.specs.Timer.{timer_answer};

use crate::refusals::refusal_of;
use crate::state::TimerState;

// No Result: the document numbers refusals, 0 for none, and a refused call hands back its state with the output off.
#[derive(Clone, Copy)]
pub struct Timed {
    pub refusal: u32,
    pub state: TimerState,
    pub on: bool,
}

impl Timed {
    pub(crate) fn accepted(state: TimerState, on: bool) -> Self
        ensures { result ≡ accepted state on }
    {
        Self {
            refusal: 0,
            state,
            on,
        }
    }

    fn refused(refusal: u32, state: TimerState) -> Self
        ensures { result ≡ refused refusal state }
    {
        Self {
            refusal,
            state,
            on: false,
        }
    }
}

// A rule is safe for any state and delay, so that refusal and reset are looked at here for all four.
#[tactic(auto, unfolding(crate::specs::Timer::timer_answer))]
pub(crate) fn answered(reset: bool, state: TimerState, d: u32, ruled: Timed) -> Timed
    ensures { result ≡ timer_answer reset state d ruled }
{
    let refusal = refusal_of(state, d);
    if refusal != 0 {
        return Timed::refused(refusal, state);
    }
    if reset {
        return Timed::accepted(TimerState::fresh(), false);
    }
    ruled
}
