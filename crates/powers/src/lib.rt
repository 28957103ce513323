// Layer 1, beneath the curves: X(m), the number behind the 0.02 power, in its constant table.
#![tactic(auto)]

mod power;
mod power_table;

pub use power::x_of;
pub use power_table::x_in_table;
