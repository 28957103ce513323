// Counts and delays at their limits and over them, without reset and with it.
use crate::kinds::{KINDS, Kind};
use crate::line::Shown;
use timer::{Combination, Inputs, TimerState};

fn call(rt: HostRuntime, kind: Kind, from: TimerState, d: u32, reset: bool) {
    let inputs = Inputs {
        combination: Combination::Plain,
        start: true,
        or_input: false,
        and_input: false,
        reset,
    };
    let timed = kind.tick(from, d, inputs);
    let _ = println!(rt;
        "{kind}, d {d}, from {}, reset {}: refusal {}, {}; {}",
        Shown(from),
        reset as u8,
        timed.refusal,
        timed.on as u8,
        Shown(timed.state)
    );
}

pub(crate) fn limits(rt: HostRuntime) {
    for kind in KINDS {
        for (count, d) in [
            (60001, 60000),
            (60002, 60000),
            (60001, 60001),
            (60002, 60001),
            (0, u32::MAX),
            (u32::MAX, 0),
            (u32::MAX, u32::MAX),
        ] {
            let from = TimerState {
                count,
                previous: true,
                latch: true,
            };
            for reset in [false, true] {
                call(rt, kind, from, d, reset);
            }
        }
    }
}
