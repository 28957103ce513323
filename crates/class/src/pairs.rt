// More current is never slower: pairs of recordings of one phase, the second with at least the current of the first at every tick.
use crate::line::{say, verdict, write_places};
use crate::phases::settings_of;
use phase::tick::tick;
use phase::{PhaseState, Settings};
use std::fmt;
use std::fmt::{Display, Formatter};

// The first tick with the trip on, where there was one.
#[derive(Clone, Copy)]
struct FirstTrip(Option<u32>);

impl FirstTrip {
    // The one found before, else this tick where its trip is on.
    fn or(self, now: u32, trip: bool) -> FirstTrip {
        FirstTrip(self.0.or(trip.then_some(now)))
    }
}

impl Display for FirstTrip {
    fn fmt<W: fmt::Write>(&self, f: &mut Formatter<W>) -> fmt::Result {
        match self.0 {
            Some(tick) => write_places(f, format_args!("{tick}")),
            None => write!(f, "none"),
        }
    }
}

// How far both have come.
#[derive(Clone, Copy)]
struct Pair {
    ticks: u32,
    first: PhaseState,
    second: PhaseState,
    first_trip: FirstTrip,
    second_trip: FirstTrip,
    never_behind: bool,
}

// So many ticks of both, each with these samples.
#[derive(Clone, Copy)]
struct Stretch {
    ticks: u32,
    first: u32,
    second: u32,
}

impl Stretch {
    fn new(ticks: u32, first: u32, second: u32) -> Self {
        Stretch {
            ticks,
            first,
            second,
        }
    }
}

// A tick of both.
fn step(settings: Settings, pair: Pair, first: u32, second: u32) -> Pair {
    let smaller = tick(settings, pair.first, first);
    let larger = tick(settings, pair.second, second);
    let below = smaller.state;
    let above = larger.state;
    let accepted = (smaller.refusal == 0) & (larger.refusal == 0);
    let counts = (below.sum <= above.sum) & (below.run <= above.run);
    let trips = !smaller.trip | larger.trip;
    let now = pair.ticks.wrapping_add(1);
    Pair {
        ticks: now,
        first: below,
        second: above,
        first_trip: pair.first_trip.or(now, smaller.trip),
        second_trip: pair.second_trip.or(now, larger.trip),
        never_behind: pair.never_behind & accepted & counts & trips,
    }
}

fn run_both(settings: Settings, pair: Pair, stretch: Stretch) -> Pair {
    let mut both = pair;
    for _ in 0..stretch.ticks {
        both = step(settings, both, stretch.first, stretch.second);
    }
    both
}

// A fault, a dip, and the fault again for 400 ticks: the first trips, and whether the second was ever behind.
fn compare(rt: HostRuntime, what: &str, operation: u32, fault: Stretch, dip: Stretch) {
    let settings = settings_of(operation, 200);
    let mut pair = Pair {
        ticks: 0,
        first: PhaseState::clear(),
        second: PhaseState::clear(),
        first_trip: FirstTrip(None),
        second_trip: FirstTrip(None),
        never_behind: true,
    };
    let again = Stretch {
        ticks: 400,
        ..fault
    };
    for stretch in [fault, dip, again] {
        pair = run_both(settings, pair, stretch);
    }
    say(
        rt,
        format_args!(
            "{what}: first trips {} and {}",
            pair.first_trip, pair.second_trip
        ),
    );
    verdict(rt, pair.never_behind);
}

pub(crate) fn pairs_of_recordings(rt: HostRuntime) {
    say(
        rt,
        "\nMore current is never slower: two recordings, the second with at least the current of the first at every tick\n",
    );
    say(
        rt,
        "Start current 200, time multiplier 1, delays 40, reset time 60. It agrees if the second's sum, run and trip are at no tick behind the first's.\n",
    );
    compare(
        rt,
        "IEC ExtInv, 15 and 16 times the setting, a dip of 59 ticks to 0 and to 50 %",
        4,
        Stretch::new(100, 300000, 320000),
        Stretch::new(59, 0, 10000),
    );
    compare(
        rt,
        "IEC ExtInv, 15 times the setting, a dip of 60 ticks to just below 95 % and to 95 %",
        4,
        Stretch::new(100, 300000, 300000),
        Stretch::new(60, 18999, 19000),
    );
    compare(
        rt,
        "ANSI Inv, 20 times the setting, a dip of 50 ticks to 0 and to 90 %",
        6,
        Stretch::new(100, 400000, 400000),
        Stretch::new(50, 0, 18000),
    );
    compare(
        rt,
        "Definite, just above the setting, a dip of 60 ticks to just below 95 % and to 95 %",
        1,
        Stretch::new(30, 20001, 20001),
        Stretch::new(60, 18999, 19000),
    );
}
