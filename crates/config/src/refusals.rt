// The refusal number of each line, by document 02.
pub const STATION: u32 = 18;

pub const CHANNEL_COUNTS: u32 = 19;

pub const ANALOGUE: u32 = 20;

pub const STATUS: u32 = 21;

pub const FREQUENCY: u32 = 22;

pub const NUMBER_OF_RATES: u32 = 23;

pub const RATE: u32 = 24;

pub const DATE: u32 = 25;

pub const FILE_TYPE: u32 = 26;

pub const MULTIPLIER: u32 = 27;
