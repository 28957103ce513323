// The reader of a line: fields of digits by commas, closed by CR LF.
ghost use Rattle.std.specs.Prelude.{◌≡◌, get_or, drop};
ghost use Rattle.text.specs.Number.{is_digit};
ghost use Rattle.faults.specs.Reader.{line_answer};
ghost use Rattle.faults.specs.device.Calls.{Readable};
ghost use Rattle.faults.specs.device.Closing.{ending_of, closes_none, closing_of};

use crate::fault::{Fault, Flaw};

// As many fields as a line may have.
pub const FIELD_LIMIT: usize = 16;

// What closes a field: the comma before the next one, or the CR LF of a right line.
#[derive(Clone, Copy, PartialEq, Eq)]
enum Closing {
    Next,
    Last,
}

// The byte at a place, 0 past the end: 0 is no digit, and closes no field. (No Option: the scan compares it with what is due, and
// docs/SHEET.md names the call.)
pub fn byte_at(s: &[u8], at: usize) -> u8
    ensures { result ≡ get_or s.now at 0 }
{
    s.get(at).copied().unwrap_or(0)
}

// docs/SHEET.md names it.
pub fn is_digit(b: u8) -> bool
    ensures { result ≡ is_digit b }
{
    b.is_ascii_digit()
}

// Whether a byte stands at a place that closes no field.
fn closes_none(s: &[u8], at: usize) -> bool
    ensures { result ≡ closes_none (drop at s.now) }
{
    at < s.len() && !matches!(s[at], b',' | b'\r')
}

// After the last field, at the end or at its CR: LF is due, and then the end.
fn ending(s: &[u8], at: usize, field: usize) -> Result<Closing, Fault>
    ensures { result ≡ ending_of at field (drop at s.now) }
{
    if s.len() <= at {
        return Err(Fault::new(Flaw::LineEnd, at, field));
    }
    let next = at + 1;
    if byte_at(s, next) != b'\n' {
        return Err(Fault::new(Flaw::LineEnd, next, field));
    }
    let after = at + 2;
    if after < s.len() {
        return Err(Fault::new(Flaw::LineEnd, after, field));
    }
    Ok(Closing::Last)
}

// What closes a field of so many digits, at a place where no digit stands: a comma, but after the last one that is due CR LF.
#[tactic(auto, unfolding(crate::specs::device::Closing::closing_by))]
fn closing_at(
    s: &[u8],
    at: usize,
    digits: usize,
    field: usize,
    last: bool,
) -> Result<Closing, Fault>
    ensures { result ≡ closing_of last digits at field (drop at s.now) }
{
    if closes_none(s, at) {
        return Err(Fault::new(Flaw::StrayByte, at, field));
    }
    if digits == 0 {
        return Err(Fault::new(Flaw::NoDigit, at, field));
    }
    let comma = byte_at(s, at) == b',';
    if comma == last {
        return Err(Fault::new(Flaw::FieldCount, at, field));
    }
    if comma {
        return Ok(Closing::Next);
    }
    ending(s, at, field)
}

// A line that is due one field for each width, in one scan: field by field, and in each digit by digit, to the first fault. The
// numbers
// stand at the front; the other places hold 0.
// Loops by hand: docs/SHEET.md has the scan as a nested loop that breaks by label, and where a field ends its bytes tell.
pub fn read_line(s: &[u8], widths: &[usize]) -> Result<[u64; FIELD_LIMIT], Fault>
    requires { Readable widths.now }
    ensures { result ≡ line_answer widths.now s.now }
{
    let mut numbers = [0u64; FIELD_LIMIT];
    let mut at = 0;
    let mut k = 0;
    'fields: loop {
        let width = widths[k];
        let field = k + 1;
        let mut digits = 0;
        let mut value: u64 = 0;
        loop {
            let b = byte_at(s, at);
            if !is_digit(b) {
                break;
            }
            if digits == width {
                break 'fields Err(Fault::new(Flaw::DigitTooMany, at, field));
            }
            value = value * 10 + (b - b'0') as u64;
            digits += 1;
            at += 1;
        }
        numbers[k] = value;
        match closing_at(s, at, digits, field, field == widths.len())? {
            Closing::Next => {
                k = field;
                at += 1;
            }
            Closing::Last => {
                break 'fields Ok(numbers);
            }
        }
    }
}
