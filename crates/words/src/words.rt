// What each refusal number that a program can meet means. Several crates give these numbers: here they stand as the documents have
// them.
use rows::Hint;

// Of 18 to 26, the part of a configuration that is at fault.
pub(crate) fn part(refusal: u32) -> Option<&'static str> {
    let part = match refusal {
        18 => "the station, the device or the year 1999",
        19 => "the number of channels",
        20 => "the analogue channel",
        21 => "the status channel",
        22 => "the frequency",
        23 => "the number of rates",
        24 => "the rate or the last sample number",
        25 => "the date",
        26 => "the file type",
        _ => return None,
    };
    Some(part)
}

// Of the others, in the words of document 01's table, and of document 02's E4, E5 and E9.
pub(crate) fn meaning(refusal: u32) -> &'static str {
    match refusal {
        1 => "the operation is outside 0 to 12",
        2 => "the start current is outside 10 to 3000",
        3 => "the time multiplier is outside 5 to 1500",
        4 => "the minimum delay is outside 40 to 60000",
        5 => "the definite delay is outside 40 to 60000",
        6 => "the reset time is outside 60 to 60000",
        7 => "start only is neither 0 nor 1",
        13 => "the row number isn't one more than the last (the first is 1)",
        14 => "the block field isn't 0 or 1",
        27 => "the multiplier is missing or malformed, or bytes follow it",
        28 => "the configuration's last sample number isn't the rows done",
        29 => "no digit in the field",
        30 => "a digit too many",
        31 => "neither a digit nor a comma",
        32 => "too few or too many fields",
        33 => "CR LF is missing, or bytes follow it",
        34 => "the operation is 0 or 1, or start only is on: there is no curve that trips",
        _ => "the number has no words",
    }
}

// What may be the matter with the file as a whole. (No `Display`: the hints are another crate's.)
pub(crate) fn hint_of(hint: Hint) -> &'static str {
    match hint {
        Hint::LineFeed => "; the file seems to have LF line ends, where CR LF is due",
        Hint::ByteOrderMark => "; the line begins with a byte order mark",
        Hint::Semicolon => "; a semicolon stands here, where fields are parted by commas",
        Hint::DataRow => "; this looks like data row 1: is the settings line missing?",
    }
}
