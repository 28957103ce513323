// Beside the phase: why one tick of one phase did or did not trip.
#![tactic(auto)]

mod answer;
mod reason;
pub mod refusals;

pub use answer::why;
pub use reason::Reason;
