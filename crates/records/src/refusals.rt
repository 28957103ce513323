// The refusal numbers of the record, beside those of data rows.
use relay::refusals::WRONG_BLOCK;

// A status field is refused as a block field is.
pub const WRONG_STATUS: u32 = WRONG_BLOCK;

pub const NO_ROOM: u32 = 16;

pub const DOES_NOT_FIT: u32 = 17;
