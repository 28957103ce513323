// The class examples on timers: what a delay of 0 does.
use crate::line::say;
use timer::{Combination, Inputs, Timed, TimerState, hold, set_delay};

fn plain(on: bool) -> Inputs {
    Inputs {
        combination: Combination::Plain,
        start: on,
        or_input: false,
        and_input: false,
        reset: false,
    }
}

// Two ticks on, one off, one on, from fresh: what a timer gives at each.
fn marks<F: Fn(TimerState, Inputs) -> Timed>(rt: HostRuntime, what: &str, tick: F)
    requires { F.IsAlwaysCallable tick }
{
    say(rt, what);
    let mut state = TimerState::fresh();
    for on in [true, true, false, true] {
        let timed = tick(state, plain(on));
        say(rt, timed.on as u8);
        state = timed.state;
    }
    say(rt, "\n");
}

pub(crate) fn timer_examples(rt: HostRuntime) {
    say(rt, "\nTimers with d 0, from fresh; input 1101\n");
    marks(
        rt,
        "Hold is never on: ",
        |state, inputs| hold(state, 0, inputs),
    );
    marks(
        rt,
        "Set delay copies the input: ",
        |state, inputs| set_delay(state, 0, inputs),
    );
}
