// The four timers by name.
use std::fmt;
use timer::{Combination, Inputs, Timed, TimerState};

#[derive(Clone, Copy)]
pub enum Kind {
    SetDelay,
    Hold,
    ResetDelay,
    FlipFlop,
}

pub(crate) const KINDS: [Kind; 4] = [Kind::SetDelay, Kind::Hold, Kind::ResetDelay, Kind::FlipFlop];

pub(crate) const COMBINATIONS: [Combination; 4] = [
    Combination::Plain,
    Combination::Or,
    Combination::And,
    Combination::OrAnd,
];

impl Kind {
    // The flip-flop's set input is the start input. Its trip input is on where the or-input is and the and-input is not, so
    // that it comes seldom. A match, since the cases come kind by kind within each combination: a function passed in would
    // have to be named at each.
    pub(crate) fn tick(self, state: TimerState, d: u32, inputs: Inputs) -> Timed {
        let trip = inputs.or_input & !inputs.and_input;
        match self {
            Kind::SetDelay => timer::set_delay(state, d, inputs),
            Kind::Hold => timer::hold(state, d, inputs),
            Kind::ResetDelay => timer::reset_delay(state, d, inputs),
            Kind::FlipFlop => timer::flip_flop(state, d, inputs.start, trip, inputs.reset),
        }
    }
}

impl fmt::Display for Kind {
    fn fmt<W: fmt::Write>(&self, f: &mut fmt::Formatter<W>) -> fmt::Result {
        f.write_str(match self {
            Kind::SetDelay => "set delay",
            Kind::Hold => "hold",
            Kind::ResetDelay => "reset delay",
            Kind::FlipFlop => "flip-flop",
        })
    }
}
