// Layer 3, the relay: three phases, the decision, and one tick.
#![tactic(auto)]

pub mod outputs;
pub mod refusals;
pub mod sample;
pub mod state;
pub mod step;
pub mod tick;

pub use sample::Sample;
pub use state::RelayState;
