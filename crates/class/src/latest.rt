// The latest trip: the smallest gain of all curves, and how long it takes to fill the highest trip level.
use crate::line::{example, say};
use crate::phases::settings_of;
use jumps::jump::{Jumped, jump};
use phase::{PhaseState, Settings};

// Of the eleven curves, at their 1,900 ratios.
fn gains_at_least(least: u64) -> bool {
    (2..=12).all(|curve| (101..=2000).all(|ratio| least <= curve::gain_of(curve, ratio)))
}

// IEC LongInv with the highest time multiplier.
fn slowest() -> Settings {
    Settings {
        time_multiplier: 1500,
        ..settings_of(5, 200)
    }
}

// So many hours from clear: the longest jump is an hour.
fn after_hours(sample: u32, hours: u32) -> PhaseState {
    let mut state = PhaseState::clear();
    for _ in 0..hours {
        state = jump(slowest(), state, sample, Jumped::JUMP_LIMIT).state;
    }
    state
}

// Whether the trip first comes so many ticks after so many hours: had it come before, the sum would be full.
fn trips_after(sample: u32, hours: u32, ticks: u32) -> bool {
    let state = after_hours(sample, hours);
    jump(slowest(), state, sample, Jumped::JUMP_LIMIT).trip == Some(ticks)
}

pub(crate) fn latest_trips(rt: HostRuntime) {
    say(
        rt,
        "\nThe latest trip: IEC LongInv, start current 200, time multiplier 15, from clear\n",
    );
    example(
        rt,
        "the gains of all eleven curves from 1.01 to 20 times the setting are 8333 or more",
        gains_at_least(8333),
    );
    example(
        rt,
        "and that of IEC LongInv at 1.01 is 8333",
        curve::gain_of(5, 101) == 8333,
    );
    example(
        rt,
        "sample 20200: first trips after 50 hours and 7201 ticks, at tick 180007201",
        trips_after(20200, 50, 7201),
    );
    example(
        rt,
        "sample 22000: first trips after 5 hours and 73 ticks, at tick 18000073",
        trips_after(22000, 5, 73),
    );
}
