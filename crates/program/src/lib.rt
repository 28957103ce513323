// What the programs share: a portion of standard input or of a file, bytes to an output, and a failure told on standard error. A
// read, write or open that a signal interrupts is tried again.
#![tactic(auto)]

mod arguments;
mod failure;
mod file;
mod input;
mod output;

pub use arguments::{argument, argument_count, number_argument, number_of, path_argument};
pub use file::{PATH_ROOM, open_file};
pub use input::{read_portion, read_portion_of};
pub use output::{print_line, say, say_number, say_text, was_taken, write_out};
