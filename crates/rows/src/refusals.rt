// The refusal numbers of rows and the settings line, beside those of the settings and the block.
pub const WRONG_NUMBER: u32 = 13;

pub const NO_DIGIT: u32 = 29;

pub const DIGIT_TOO_MANY: u32 = 30;

pub const STRAY_BYTE: u32 = 31;

pub const FIELD_COUNT: u32 = 32;

pub const LINE_END: u32 = 33;
