// The timers, one tick at a time: Set delay, Hold, Reset delay and the flip-flop.
#![tactic(auto)]

mod answer;
mod inputs;
pub mod refusals;
mod rules;
mod state;
mod timer;

pub use answer::Timed;
pub use inputs::{Combination, Inputs};
pub use state::TimerState;
pub use timer::{flip_flop, hold, reset_delay, set_delay};
