// A row that begins with its number: its numbers, where its shape is right and it is the next.
ghost use Rattle.std.specs.Prelude.{◌≡◌};
ghost use Rattle.faults.specs.device.Calls.{Readable};
ghost use Rattle.rows.specs.Numbered.{numbered_answer};

use crate::refusal::{Refusal, refuse, refuse_shape};
use crate::refusals::WRONG_NUMBER;
use faults::reader::{FIELD_LIMIT, read_line};

// Reads the row that these bytes are, due fields of these widths, after a row of number `last` (0 before the first).
pub fn read_numbered(row: &[u8], widths: &[usize], last: u32) -> Result<[u64; FIELD_LIMIT], Refusal>
    requires { Readable widths.now }
    ensures { result ≡ numbered_answer widths.now row.now last }
{
    let numbers = read_line(row, widths).map_err(|fault| refuse_shape(row, fault, widths.len()))?;
    if numbers[0] != last as u64 + 1 {
        return Err(refuse(WRONG_NUMBER));
    }
    Ok(numbers)
}
