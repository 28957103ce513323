// The relay's record: its rows in the shape of COMTRADE, written and read.
#![tactic(auto)]

mod reader;
mod record_row;
pub mod refusals;
mod status;
mod writer;

pub use reader::read_record_row;
pub use record_row::RecordRow;
pub use writer::{RowWritten, write_row};
