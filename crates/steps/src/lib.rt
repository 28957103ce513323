// Layer 4: the replay line by line: how far a line brings it, and what that writes: change lines, the record, or the explanation of
// a row.
#![tactic(auto)]

mod configuration;
mod output;
mod progress;
pub mod refusals;

pub use configuration::Configuration;
pub use output::{END_ROOM, EXPLAIN_SPREAD, Form, RECORD_SPREAD, note_change};
pub use progress::{Progress, Stage, after_held, end_refusal, on_end, on_line};
