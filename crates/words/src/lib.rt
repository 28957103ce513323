// What a refusal means, for a person, in one form for every program.
#![tactic(auto)]

mod reason;
mod words;

pub use reason::say_reason;
