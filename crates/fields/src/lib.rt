// What a field of a recorder's configuration must be: a library beneath `config`.
#![tactic(auto)]

pub mod field;
pub mod marks;
mod number;
