// How the parts of a line are written. What standard output does not take is let go: who compares the lines misses them.
use std::fmt;
use timer::{Combination, TimerState};

// The timer's types, as a line shows them.
#[derive(Clone, Copy)]
pub struct Shown<T>(pub T);

// Count, previous input and latch.
impl fmt::Display for Shown<TimerState> {
    fn fmt<W: fmt::Write>(&self, f: &mut fmt::Formatter<W>) -> fmt::Result {
        let state = self.0;
        write!(
            f,
            "{},{},{}",
            state.count, state.previous as u8, state.latch as u8
        )
    }
}

impl fmt::Display for Shown<Combination> {
    fn fmt<W: fmt::Write>(&self, f: &mut fmt::Formatter<W>) -> fmt::Result {
        f.write_str(match self.0 {
            Combination::Plain => "plain",
            Combination::Or => "or",
            Combination::And => "and",
            Combination::OrAnd => "or-and",
        })
    }
}
