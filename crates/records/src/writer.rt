// Writes the record, row after row, into a lent buffer.
ghost use Rattle.std.specs.Prelude.{◌≡◌, true, ◌≤◌, length};
ghost use Rattle.records.specs.RecordRow.{row_fits, record_text};
ghost use Rattle.records.specs.Writer.{free_from, write_refusal, write_answer};
ghost use Rattle.text.specs.device.Calls.{Wrote};

use crate::record_row::{RecordRow, field_numbers, row_fits};
use crate::refusals::{DOES_NOT_FIT, NO_ROOM};
use text::decimals::{line_length, put_line};

// 0 or the refusal's number, and the place where the next row goes: a refused write too hands it back (`write_row` in docs/SHEET.md).
#[derive(Clone, Copy)]
pub struct RowWritten {
    pub refusal: u32,
    pub place: usize,
}

// How many of so many bytes are free from a place on.
fn free_from(long: usize, at: usize) -> usize
    ensures { result ≡ free_from long at }
{
    long.saturating_sub(at)
}

// How many bytes the row needs.
fn row_needs(x: RecordRow) -> usize
    requires { row_fits x ≡ true }
    ensures { result ≡ length (record_text x) }
{
    let numbers = field_numbers(x);
    line_length(&numbers)
}

// The row, at the front of the free bytes; answers how long it is.
fn put_row(free: &mut [u8], x: RecordRow) -> usize
    requires { (row_fits x ≡ true) × (length (record_text x) ≤ length free.old) }
    ensures { Wrote free.old free.new 0 result (record_text x) }
{
    let numbers = field_numbers(x);
    put_line(free, &numbers)
}

// What the row is refused with where so many bytes are free, 0 for nothing, as `RowWritten` tells it.
#[tactic(auto, unfolding(crate::specs::Writer::write_refusal))]
fn write_refusal(x: RecordRow, free: usize) -> u32
    ensures { result ≡ write_refusal x free }
{
    if !row_fits(x) {
        return DOES_NOT_FIT;
    }
    if free < row_needs(x) {
        return NO_ROOM;
    }
    0
}

// Writes the row at a place of the buffer, and answers the place after it.
pub fn write_row(out: &mut [u8], at: usize, x: RecordRow) -> RowWritten
    ensures { record { answer = result; buffer = out.new } ≡ write_answer out.old at x }
{
    let refusal = write_refusal(x, free_from(out.len(), at));
    if refusal != 0 {
        return RowWritten { refusal, place: at };
    }
    let long = put_row(&mut out[at..], x);
    RowWritten {
        refusal: 0,
        place: at + long,
    }
}
