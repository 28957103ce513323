// The explanation of a tick as text: a line for each phase.
#![tactic(auto)]

mod explanation;

pub use explanation::put_explanation;
