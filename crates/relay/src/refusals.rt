// The refusal number of the relay, beside those of a phase. `why` has it too, since it needs nothing else of this crate.
pub const WRONG_BLOCK: u32 = 14;
