// A line of the configuration against its shape.
ghost use Rattle.std.specs.Prelude.{◌≡◌, true, ◌&&◌, [], ◌≤◌, ◌<◌, length, get_or};
ghost use Rattle.text.specs.Number.{value_of};
ghost use Rattle.text.specs.Line.{fields_in};
ghost use Rattle.fields.specs.Marks.{unspaced, all_printable};
ghost use Rattle.config.specs.device.Calls.{FieldEnds, all_readable};
ghost use Rattle.config.specs.Config.{last_sample_in, rate_fields};
ghost use Rattle.config.specs.Reader.{is_right_at};
ghost use Rattle.config.specs.Line.{fit_all, is_right};
ghost use Rattle.config.specs.Shape.{line_count, shape_at};

use crate::shape::{LAST_LINE, shape_at};
use checks::in_range;
use fields::field::{Field, fits};
use fields::marks::{all_within, spaces, until};
use text::number::read_digits;

// With its CR LF.
pub(crate) const LONGEST_LINE: usize = 256;

// The place after the field that begins at a place.
fn field_end(s: &[u8], at: usize) -> usize
    requires { at ≤ length s.now }
    ensures { FieldEnds s.now at result }
{
    at + until(&s[at..], b',', b',')
}

// Whether the fields of a text are these.
fn fields_fit(s: &[u8], fields: &[Field]) -> bool
    requires { all_readable fields.now ≡ true }
    ensures { result ≡ fit_all fields.now (fields_in s.now) }
{
    // By places: what a field must be is asked before the next comma is looked for.
    let mut at = 0;
    for (k, field) in fields.iter().enumerate() {
        let end = field_end(s, at);
        if !fits(*field, &s[at..end]) {
            return false;
        }
        if end == s.len() {
            return k + 1 == fields.len();
        }
        at = end + 1;
    }
    false
}

// Whether a text holds the fields of the line at a place of the list, where it is printable.
fn body_fits(place: usize, s: &[u8]) -> bool
    requires { place < line_count }
    ensures { result ≡ all_printable s.now && fit_all (shape_at place).fields (fields_in s.now) }
{
    all_within(s, b' ', b'~') && fields_fit(s, shape_at(place).fields)
}

// Whether a line is the one of this number.
pub(crate) fn is_right_at(line: u32, l: &[u8]) -> bool
    ensures { result ≡ is_right_at line l.now }
{
    if !in_range(1, LAST_LINE, line) {
        return false;
    }
    if LONGEST_LINE < l.len() {
        return false;
    }
    match l {
        [body @ .., b'\r', b'\n'] => body_fits((line - 1) as usize, body),
        _ => false,
    }
}

// The second number of the fields of the rate's line.
fn second_number(s: &[u8]) -> u64
    requires { fit_all rate_fields (fields_in s.now) ≡ true }
    ensures { result ≡ value_of (unspaced (get_or (fields_in s.now) 1 [])) }
{
    let at = until(s, b',', b',') + 1;
    let n = spaces(&s[at..]);
    let d = read_digits(s, at + n, 10);
    d.value
}

// The last sample number of a right line of the rate.
pub(crate) fn last_sample(l: &[u8]) -> u64
    requires { is_right rate_fields l.now ≡ true }
    ensures { result ≡ last_sample_in l.now }
{
    let n = l.len() - 2;
    second_number(&l[..n])
}
