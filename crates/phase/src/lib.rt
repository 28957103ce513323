// Layer 2, one phase: the settings and their check, the phase state, and one tick.
#![tactic(auto)]

pub mod advance;
pub mod checked;
pub mod operation;
pub mod pace;
pub mod refusals;
pub mod settings;
pub mod state;
pub mod tick;

pub use advance::EqualTicks;
pub use checked::CheckedSettings;
pub use settings::Settings;
pub use state::PhaseState;
