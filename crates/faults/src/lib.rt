// Lines of numbers: the faults of a line, each with its place, and the reader that tells the first of them or the numbers. It names
// nothing of relays.
#![tactic(auto)]

pub mod fault;
pub mod reader;
