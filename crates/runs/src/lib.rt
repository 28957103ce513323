// A replay of standard input, which the programs share: portion by portion to standard output, in a form; the configuration that
// a file holds; and why an input was refused, on standard error.
#![tactic(auto)]

mod configuration;
mod portions;
mod refusal;

pub use configuration::read_configuration;
pub use portions::{PORTION, run};
pub use refusal::tell;
