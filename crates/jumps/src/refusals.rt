// The refusal number of a jump, beside those of a tick.
pub const JUMP_TOO_LONG: u32 = 9;
