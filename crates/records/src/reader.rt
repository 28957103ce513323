// Reads a row of the record back.
ghost use Rattle.std.specs.Prelude.{◌≡◌};
ghost use Rattle.records.specs.Reader.{record_refusal, record_answer, record_numbers};

use crate::record_row::{FIELDS, RecordRow};
use crate::refusals::WRONG_STATUS;
use crate::status::read_status;
use rows::{Refusal, read_numbered, refuse};

// How many digits its fields may have.
const WIDTHS: [usize; FIELDS] = [6, 10, 7, 7, 7, 1, 1, 1, 1, 1, 1, 1, 1];

// Reads the row that these bytes are, after a row of number `last` (0 before the first).
pub fn read_record_row(row: &[u8], last: u32) -> Result<RecordRow, Refusal>
    ensures answer { result ≡ record_answer row.now last }
    ensures numbers { record_numbers result ≡ record_refusal row.now last }
{
    let n = read_numbered(row, &WIDTHS, last)?;
    let Some(outputs) = read_status(&n[5..13]) else {
        return Err(refuse(WRONG_STATUS));
    };
    Ok(RecordRow {
        number: n[0] as u32,
        l1: n[2] as u32,
        l2: n[3] as u32,
        l3: n[4] as u32,
        outputs,
    })
}
