// Layer 1, the curves of document 01: the ratio of a sample to the start current, the operate and the reset
// time, and what a tick adds to a phase's sum or takes from it. X(m) is that of `powers`.
#![tactic(auto)]

mod constants;
mod gain;
mod ratio;
mod rounding;
mod time;

pub use gain::{gain_of, loss_of};
pub use ratio::ratio_of;
pub use time::{operate_time, reset_time};
