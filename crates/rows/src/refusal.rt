// What a line is refused with.
ghost use Rattle.std.specs.Prelude.{◌≡◌};
ghost use Rattle.rows.specs.Refusal.{flaw_number, has_mark, lf_for_cr_lf, semicolon_at, row_for_settings};
ghost use Rattle.rows.specs.Refusal.{hint_of, misshapen, without_place};

use crate::refusals::{DIGIT_TOO_MANY, FIELD_COUNT, LINE_END, NO_DIGIT, STRAY_BYTE};
use crate::widths::{ROW_WIDTHS, SETTINGS_WIDTHS};
use faults::fault::{Fault, Flaw};
use faults::reader::{byte_at, is_digit, read_line};

// What a person is told beside the place: that LF stands there, where CR LF is due; that the line begins with a byte order mark; that
// a semicolon stands there; or that the line may be data row 1, where the settings line is due.
#[derive(Clone, Copy, PartialEq, Eq)]
pub enum Hint {
    LineFeed,
    ByteOrderMark,
    Semicolon,
    DataRow,
}

// A byte offset in the line, and its field, counted from 1.
#[derive(Clone, Copy, PartialEq, Eq)]
pub struct Place {
    pub offset: usize,
    pub field: usize,
}

// The number, 0 for none, as the end line tells it; of a wrong shape the place too, and what a person may be told of it.
#[derive(Clone, Copy, PartialEq, Eq)]
pub struct Refusal {
    pub number: u32,
    pub place: Option<Place>,
    pub hint: Option<Hint>,
}

// A match and no `From`: the flaws are another crate's, which knows no refusal numbers.
fn flaw_number(flaw: Flaw) -> u32
    ensures { result ≡ flaw_number flaw }
{
    match flaw {
        Flaw::NoDigit => NO_DIGIT,
        Flaw::DigitTooMany => DIGIT_TOO_MANY,
        Flaw::StrayByte => STRAY_BYTE,
        Flaw::FieldCount => FIELD_COUNT,
        Flaw::LineEnd => LINE_END,
    }
}

fn has_mark(line: &[u8]) -> bool
    ensures { result ≡ has_mark line.now }
{
    line.starts_with(&[0xEF, 0xBB, 0xBF])
}

// Whether LF stands at the fault, right after a digit.
fn is_lf_for_cr_lf(line: &[u8], fault: Fault) -> bool
    ensures { result ≡ lf_for_cr_lf line.now fault }
{
    0 < fault.offset
        && byte_at(line, fault.offset) == b'\n'
        && is_digit(byte_at(line, fault.offset - 1))
}

fn is_semicolon(line: &[u8], fault: Fault) -> bool
    ensures { result ≡ semicolon_at line.now fault }
{
    byte_at(line, fault.offset) == b';'
}

fn is_row_for_settings(line: &[u8], fields: usize) -> bool
    ensures { result ≡ row_for_settings fields line.now }
{
    fields == SETTINGS_WIDTHS.len()
        && match read_line(line, &ROW_WIDTHS) {
            Ok(n) => n[0] == 1,
            Err(_) => false,
        }
}

fn hint_at(line: &[u8], fault: Fault, fields: usize) -> Option<Hint>
    ensures { result ≡ hint_of fields line.now fault }
{
    if is_lf_for_cr_lf(line, fault) {
        Some(Hint::LineFeed)
    } else if has_mark(line) {
        Some(Hint::ByteOrderMark)
    } else if is_semicolon(line, fault) {
        Some(Hint::Semicolon)
    } else if is_row_for_settings(line, fields) {
        Some(Hint::DataRow)
    } else {
        None
    }
}

// A line of wrong shape, which is due so many fields.
pub fn refuse_shape(line: &[u8], fault: Fault, fields: usize) -> Refusal
    ensures { result ≡ misshapen fields line.now fault }
{
    Refusal {
        number: flaw_number(fault.flaw),
        place: Some(Place {
            offset: fault.offset,
            field: fault.field,
        }),
        hint: hint_at(line, fault, fields),
    }
}

// A refusal that has no place in the line.
pub fn refuse(number: u32) -> Refusal
    ensures { result ≡ without_place number }
{
    Refusal {
        number,
        place: None,
        hint: None,
    }
}
