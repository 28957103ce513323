// A data row: number, timestamp, L1, L2, L3, block.
ghost use Rattle.std.specs.Prelude.{◌≡◌};
ghost use Rattle.rows.specs.Row.{row_refusal, row_answer, row_numbers};

use crate::numbered::read_numbered;
use crate::refusal::{Refusal, refuse};
use crate::widths::ROW_WIDTHS;
use relay::Sample;
use relay::refusals::WRONG_BLOCK;

#[derive(Clone, Copy)]
pub struct Row {
    pub number: u32,
    pub sample: Sample,
}

// Reads the row that these bytes are, after a row of number `last` (0 before the first).
pub fn read_row(row: &[u8], last: u32) -> Result<Row, Refusal>
    ensures answer { result ≡ row_answer row.now last }
    ensures numbers { row_numbers result ≡ row_refusal row.now last }
{
    let n = read_numbered(row, &ROW_WIDTHS, last)?;
    if 1 < n[5] {
        return Err(refuse(WRONG_BLOCK));
    }
    Ok(Row {
        number: n[0] as u32,
        sample: Sample {
            l1: n[2] as u32,
            l2: n[3] as u32,
            l3: n[4] as u32,
            block: n[5] as u8,
        },
    })
}
