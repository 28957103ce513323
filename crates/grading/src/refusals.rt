// The refusal numbers of grading. 1 to 7 are the rows of the settings table.
pub const NOT_GRADED: u32 = 34;

pub const WRONG_RATIO: u32 = 35;

pub const SHORT_LIST: u32 = 36;
