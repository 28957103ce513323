// Runs of 32 ticks. The generator goes on from each run to the next, so that no two have the same inputs.
use crate::generator::{Generator, Load};
use crate::kinds::{COMBINATIONS, KINDS, Kind};
use crate::line::Shown;
use timer::{Combination, TimerState};

fn run(
    rt: HostRuntime,
    kind: Kind,
    load: Load,
    begun: TimerState,
    d: u32,
    generator: &mut Generator,
) {
    let _ = print!(rt;
        "{kind}, d {d}, from {}, {}, on {}/16, resets {}: ",
        Shown(begun),
        Shown(load.combination),
        load.density,
        load.resets as u8
    );
    let mut state = begun;
    for _ in 0..32 {
        let timed = kind.tick(state, d, generator.draw(load));
        let _ = rt.print(timed.on as u8);
        state = timed.state;
    }
    let _ = println!(rt; "; {}", Shown(state));
}

fn begun(count: u32, previous: bool, latch: bool) -> TimerState {
    TimerState {
        count,
        previous,
        latch,
    }
}

// From fresh, from a low count, from one that can pass 60,000 in a run, and from the count's limit.
fn each_state(rt: HostRuntime, kind: Kind, load: Load, generator: &mut Generator) {
    for from in [
        TimerState::fresh(),
        begun(3, true, false),
        begun(59990, false, false),
        begun(60001, true, true),
    ] {
        for d in [0, 1, 2, 5, 60000] {
            run(rt, kind, load, from, d, generator);
        }
    }
}

fn each_load(rt: HostRuntime, kind: Kind, combination: Combination, generator: &mut Generator) {
    for (density, resets) in [(11, false), (4, true), (16, false)] {
        let load = Load {
            combination,
            density,
            resets,
        };
        each_state(rt, kind, load, generator);
    }
}

pub(crate) fn runs(rt: HostRuntime) {
    let mut generator = Generator { x: 1 };
    for kind in KINDS {
        let combinations = match kind {
            Kind::FlipFlop => &[Combination::Plain][..], // it has no combination of inputs
            _ => &COMBINATIONS[..],
        };
        for combination in combinations {
            each_load(rt, kind, *combination, &mut generator);
        }
    }
}
