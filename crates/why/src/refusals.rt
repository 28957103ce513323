// The refusal number of a block byte, beside those of a tick.
pub const WRONG_BLOCK: u32 = 14;
