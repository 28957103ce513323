// The refusal number that only a replay gives, beside those of rows, settings line and configuration.
pub const WRONG_LAST_SAMPLE: u32 = 28;
