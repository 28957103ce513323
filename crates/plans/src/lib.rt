// Layer 2, ticks by a plan: what the settings come to, worked out once, and what the last sample does to a sum, remembered.
#![tactic(auto)]

pub mod course;
pub mod memo;
pub mod plan;
pub mod planned;

pub use planned::Planned;
