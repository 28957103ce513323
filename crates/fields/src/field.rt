// The sorts of fields, and whether bytes are such a field.
ghost use Rattle.std.specs.Prelude.{◌≡◌, true};
ghost use Rattle.fields.specs.Number.{is_number_or_nothing};
ghost use Rattle.fields.specs.Field.{is_primary_or_secondary};
ghost use Rattle.fields.specs.Field.{is_month_and_year, is_date, is_seconds, is_minutes, is_time, fits_field};
ghost use Rattle.fields.specs.device.Calls.{readable};

use crate::marks::spaces;
pub use crate::number::Whole;
use crate::number::{after_whole, is_channels, is_decimal_of, is_extreme, is_number, is_whole};

// What a field must be.
#[derive(Clone, Copy)]
pub enum Field {
    // so many bytes
    Text(usize, usize),
    Whole(Whole),
    // so many channels, and the letter of their sort
    Channels(u64, u8),
    // a decimal of this value
    Decimal(u64),
    // a decimal, with or without an exponent
    Number,
    NumberOrNothing,
    // the least or the greatest sample
    Extreme,
    PrimaryOrSecondary,
    Ascii,
    Date,
    Time,
}

const DAY: Whole = Whole {
    least: 1,
    most: 2,
    low: 1,
    high: 31,
};

const MONTH: Whole = Whole {
    least: 1,
    most: 2,
    low: 1,
    high: 12,
};

const YEAR: Whole = Whole {
    least: 4,
    most: 4,
    low: 1900,
    high: 9999,
};

const HOUR: Whole = Whole {
    least: 2,
    most: 2,
    low: 0,
    high: 23,
};

// Of minutes and seconds.
const SIXTIETH: Whole = Whole {
    least: 2,
    most: 2,
    low: 0,
    high: 59,
};

const MICROSECONDS: Whole = Whole {
    least: 6,
    most: 6,
    low: 0,
    high: 999999,
};

fn is_month_and_year(s: &[u8]) -> bool
    ensures { result ≡ is_month_and_year s.now }
{
    after_whole(s, MONTH, b'/').is_some_and(|year| is_whole(year, YEAR))
}

// dd/mm/yyyy, from the year 1900 on.
fn is_date(s: &[u8]) -> bool
    ensures { result ≡ is_date s.now }
{
    after_whole(s, DAY, b'/').is_some_and(is_month_and_year)
}

fn is_seconds(s: &[u8]) -> bool
    ensures { result ≡ is_seconds s.now }
{
    after_whole(s, SIXTIETH, b'.').is_some_and(|parts| is_whole(parts, MICROSECONDS))
}

fn is_minutes(s: &[u8]) -> bool
    ensures { result ≡ is_minutes s.now }
{
    after_whole(s, SIXTIETH, b':').is_some_and(is_seconds)
}

// hh:mm:ss.ssssss
fn is_time(s: &[u8]) -> bool
    ensures { result ≡ is_time s.now }
{
    after_whole(s, HOUR, b':').is_some_and(is_minutes)
}

fn is_number_or_nothing(s: &[u8]) -> bool
    ensures { result ≡ is_number_or_nothing s.now }
{
    s.is_empty() || is_number(s)
}

fn is_primary_or_secondary(s: &[u8]) -> bool
    ensures { result ≡ is_primary_or_secondary s.now }
{
    s.eq_ignore_ascii_case(b"P") || s.eq_ignore_ascii_case(b"S")
}

// Whether the bytes between two commas are such a field. But for a text, it may begin with spaces.
pub fn fits(field: Field, s: &[u8]) -> bool
    requires { readable field ≡ true }
    ensures { result ≡ fits_field field s.now }
{
    let t = &s[spaces(s)..];
    match field {
        Field::Text(least, most) => (least <= s.len()) & (s.len() <= most),
        Field::Whole(whole) => is_whole(t, whole),
        Field::Channels(value, letter) => is_channels(t, value, letter),
        Field::Decimal(value) => is_decimal_of(t, value),
        Field::Number => is_number(t),
        Field::NumberOrNothing => is_number_or_nothing(t),
        Field::Extreme => is_extreme(t),
        Field::PrimaryOrSecondary => is_primary_or_secondary(t),
        Field::Ascii => t.eq_ignore_ascii_case(b"ASCII"),
        Field::Date => is_date(t),
        Field::Time => is_time(t),
    }
}
