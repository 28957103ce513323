// The four rules, each for an accepted call without reset.
ghost use Rattle.std.specs.Prelude.{◌≡◌};
ghost use Rattle.timer.specs.Rules.{counted};
ghost use Rattle.timer.specs.Rules.{set_delay_rule, hold_rule, reset_delay_rule, flip_flop_rule};

use crate::answer::Timed;
use crate::state::TimerState;

fn counted(input: bool, count: u32) -> u32
    ensures { result ≡ counted input count }
{
    if input {
        count.saturating_add(1).min(TimerState::COUNT_LIMIT)
    } else {
        0
    }
}

pub(crate) fn set_delay_rule(d: u32, input: bool, state: TimerState) -> Timed
    ensures { result ≡ set_delay_rule d input state }
{
    let count = counted(input, state.count);
    Timed::accepted(TimerState { count, ..state }, d < count)
}

pub(crate) fn hold_rule(d: u32, input: bool, state: TimerState) -> Timed
    ensures { result ≡ hold_rule d input state }
{
    let (count, on) = if 0 < state.count {
        (state.count - 1, true)
    } else if input && !state.previous && 0 < d {
        (d - 1, true)
    } else {
        (state.count, false)
    };
    let previous = input;
    Timed::accepted(
        TimerState {
            count,
            previous,
            ..state
        },
        on,
    )
}

pub(crate) fn reset_delay_rule(d: u32, input: bool, state: TimerState) -> Timed
    ensures { result ≡ reset_delay_rule d input state }
{
    let (count, on) = if input {
        (d, true)
    } else {
        (state.count.saturating_sub(1), 0 < state.count)
    };
    Timed::accepted(TimerState { count, ..state }, on)
}

pub(crate) fn flip_flop_rule(d: u32, set: bool, trip: bool, state: TimerState) -> Timed
    ensures { result ≡ flip_flop_rule d set trip state }
{
    let count = counted(set, state.count);
    let latch = state.latch || d < count || trip;
    Timed::accepted(
        TimerState {
            count,
            latch,
            ..state
        },
        latch,
    )
}
