// The recorder's configuration: thirteen lines of COMTRADE 1999, each held against its shape.
#![tactic(auto)]

mod line;
mod reader;
mod refusals;
mod shape;

pub use reader::{Fault, Reader, Reading};
