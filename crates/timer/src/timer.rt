// The four calls: names that the documents have, each a line with its rule (a body over `impl Fn` is as long).
ghost use Rattle.std.specs.Prelude.{◌≡◌};
ghost use Rattle.timer.specs.Timer.{set_delay_answer, hold_answer, reset_delay_answer, flip_flop_answer};

use crate::answer::{Timed, answered};
use crate::inputs::Inputs;
use crate::rules::{flip_flop_rule, hold_rule, reset_delay_rule, set_delay_rule};
use crate::state::TimerState;

// On once the input has been on for more than d ticks in a row.
pub fn set_delay(state: TimerState, d: u32, inputs: Inputs) -> Timed
    ensures { result ≡ set_delay_answer state d inputs }
{
    let ruled = set_delay_rule(d, inputs.combined(), state);
    answered(inputs.reset, state, d, ruled)
}

// On for d ticks from a rise of the input on, whatever the input does meanwhile.
pub fn hold(state: TimerState, d: u32, inputs: Inputs) -> Timed
    ensures { result ≡ hold_answer state d inputs }
{
    let ruled = hold_rule(d, inputs.combined(), state);
    answered(inputs.reset, state, d, ruled)
}

// On while the input is on, and for d ticks after.
pub fn reset_delay(state: TimerState, d: u32, inputs: Inputs) -> Timed
    ensures { result ≡ reset_delay_answer state d inputs }
{
    let ruled = reset_delay_rule(d, inputs.combined(), state);
    answered(inputs.reset, state, d, ruled)
}

// On from the tick at which the set input has been on for more than d ticks in a row or the trip input is on, until a reset.
pub fn flip_flop(state: TimerState, d: u32, set: bool, trip: bool, reset: bool) -> Timed
    ensures { result ≡ flip_flop_answer state d set trip reset }
{
    let ruled = flip_flop_rule(d, set, trip, state);
    answered(reset, state, d, ruled)
}
