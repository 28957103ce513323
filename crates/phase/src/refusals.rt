// The refusal number of a state. 1 to 7 are the rows of the settings table.
pub const INVALID_STATE: u32 = 8;
