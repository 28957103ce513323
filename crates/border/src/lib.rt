// The C border: the two functions that the host firmware calls. A crate of its own, so that the archive is made without
// checking the relay again.
#![tactic(auto)]

pub mod batch;
pub mod check;
mod settings;
