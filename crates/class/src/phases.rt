// The class examples on one phase.
use crate::line::{example, say};
use jumps::jump::jump;
use phase::tick::{Ticked, tick};
use phase::{PhaseState, Settings};

// An operation with the start current s and the reset time 60.
pub(crate) fn settings_of(operation: u32, s: u32) -> Settings {
    Settings {
        operation,
        start_current: s,
        time_multiplier: 100,
        minimum_delay: 40,
        definite_delay: 40,
        reset_time: 60,
        start_only: 0,
    }
}

// IEC VeryInv.
fn settings(s: u32) -> Settings {
    settings_of(3, s)
}

fn starts(s: u32, g: u32) -> bool {
    tick(settings(s), PhaseState::clear(), g).start
}

// A phase that has run for one tick, with this sum.
fn running(sum: u64) -> PhaseState {
    PhaseState {
        sum,
        run: 1,
        drop: 0,
        started: true,
    }
}

fn tick_running(g: u32) -> Ticked {
    tick(settings(200), running(1000), g)
}

// Whether a phase that has run for one tick, with a full sum, first trips at tick k.
fn trips_first_at(g: u32, k: u32) -> bool {
    jump(settings(200), running(100000000000), g, 1000).trip == Some(k)
}

// The sum after so many idle ticks, from a sum of 1000.
fn sum_after(idle: u32) -> u64 {
    let dipping = PhaseState {
        sum: 1000,
        ..PhaseState::clear()
    };
    jump(settings(200), dipping, 0, idle).state.sum
}

// A definite-time phase with the definite delay 40 in a dip after 39 ticks running.
fn in_a_dip() -> PhaseState {
    PhaseState {
        run: 39,
        drop: 1,
        ..PhaseState::clear()
    }
}

// Its run after so many idle ticks more.
fn run_after(idle: u32) -> u32 {
    jump(settings_of(1, 200), in_a_dip(), 0, idle).state.run
}

fn definite_examples(rt: HostRuntime) {
    say(
        rt,
        "\nOne phase, Definite, run 39 kept in the first tick of a dip\n",
    );
    example(
        rt,
        "start current 200, sample 19400: not started",
        !tick(settings_of(1, 200), in_a_dip(), 19400).start,
    );
    example(
        rt,
        "start current 200, sample 20001, definite delay 40: trips at tick 1",
        jump(settings_of(1, 200), in_a_dip(), 20001, 1000).trip == Some(1),
    );
    example(
        rt,
        "reset time 60, the 59th idle tick keeps the run",
        run_after(58) == 39,
    );
    example(rt, "reset time 60, the 60th clears it", run_after(59) == 0);
}

pub(crate) fn phase_examples(rt: HostRuntime) {
    say(rt, "\nOne phase, IEC VeryInv\n");
    example(
        rt,
        "from clear, start current 200, sample 20000: not started",
        !starts(200, 20000),
    );
    example(
        rt,
        "from clear, start current 200, sample 20001: started",
        starts(200, 20001),
    );
    example(
        rt,
        "from clear, start current 3000, sample 4294967295: started",
        starts(3000, 4294967295),
    );
    example(
        rt,
        "run 1, start current 200, sample 19000: stays started",
        tick_running(19000).start,
    );
    example(
        rt,
        "run 1, start current 200, sample 18999: drops out",
        !tick_running(18999).start,
    );
    let held = tick_running(19999);
    example(
        rt,
        "run 1, start current 200, sample 19999: started, and gains nothing",
        held.start & (held.state.sum == 1000),
    );
    example(
        rt,
        "run 1, full sum, minimum delay 40, sample 19000: trips at tick 39",
        trips_first_at(19000, 39),
    );
    example(
        rt,
        "run 1, full sum, minimum delay 40, sample 20001: trips at tick 39, though it gains nothing",
        trips_first_at(20001, 39),
    );
    example(
        rt,
        "reset time 60, 59 idle ticks keep the sum",
        sum_after(59) == 1000,
    );
    example(
        rt,
        "reset time 60, 60 idle ticks clear it",
        sum_after(60) == 0,
    );
    definite_examples(rt);
}
