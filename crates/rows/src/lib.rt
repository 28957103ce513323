// Layer 4, one line at a time: data rows and the settings line.
#![tactic(auto)]

mod front;
mod numbered;
mod refusal;
pub mod refusals;
mod row;
mod settings_line;
mod widths;

pub use front::{Front, read_front};
pub use numbered::read_numbered;
pub use refusal::{Hint, Place, Refusal, refuse, refuse_shape};
pub use row::{Row, read_row};
pub use settings_line::read_settings_line;
