// Text and bytes: a library beneath the layers, which names nothing of relays.
#![tactic(auto)]

pub mod bytes;
pub mod cutter;
pub mod decimals;
pub mod lines;
pub mod number;
pub mod page;
pub mod words;
