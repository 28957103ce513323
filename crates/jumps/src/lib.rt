// Layer 2, many equal ticks of one phase at once.
#![tactic(auto)]

mod first_trip;
pub mod jump;
pub mod refusals;
