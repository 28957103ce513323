// Two relays side by side: the first trip of each at a ratio of its own setting, the margin between them, and the ratios at which it
// is too small.
#![tactic(auto)]

mod first_trip;
pub mod margin;
pub mod margins;
pub mod refusal;
pub mod refusals;
mod tripping;
