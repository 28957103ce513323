// Each combination with all its inputs, from the fresh state.
use crate::kinds::{COMBINATIONS, KINDS, Kind};
use crate::line::Shown;
use timer::{Combination, Inputs, TimerState};

// The inputs are the bits of n: start, or-input, and-input, reset.
fn inputs_of(combination: Combination, n: u32) -> Inputs {
    Inputs {
        combination,
        start: n % 2 == 1,
        or_input: n / 2 % 2 == 1,
        and_input: n / 4 % 2 == 1,
        reset: n / 8 % 2 == 1,
    }
}

fn table(rt: HostRuntime, kind: Kind, combination: Combination) {
    let d = match kind {
        Kind::Hold => 1,
        _ => 0,
    };
    let fresh = TimerState::fresh();
    let _ = print!(rt;
        "{kind}, d {d}, from {}, {}, all inputs: ",
        Shown(fresh),
        Shown(combination)
    );
    for n in 0..16 {
        let timed = kind.tick(fresh, d, inputs_of(combination, n));
        let _ = rt.print(timed.on as u8);
    }
    let _ = println!(rt);
}

pub(crate) fn combinations(rt: HostRuntime) {
    for combination in COMBINATIONS {
        for kind in KINDS {
            table(rt, kind, combination);
        }
    }
}
