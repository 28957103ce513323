// A line of decimals: its length, and writing it.
ghost use Rattle.std.specs.Prelude.{◌≡◌, ◌≤◌, length};
ghost use Rattle.text.specs.Decimals.{line_of};
ghost use Rattle.text.specs.device.Calls.{Writable, Wrote};

use crate::number::{decimal_length, put_decimal};

// How many bytes the line has: each field with the byte that closes it, and LF.
pub fn line_length(numbers: &[u32]) -> usize
    requires { Writable numbers.now }
    ensures { result ≡ length (line_of numbers.now) }
{
    let mut at = 0;
    for n in numbers {
        at += decimal_length(*n) + 1;
    }
    at + 1
}

// Writes the line at the front of `out`, and answers its length.
pub fn put_line(out: &mut [u8], numbers: &[u32]) -> usize
    requires { (Writable numbers.now) × (length (line_of numbers.now) ≤ length out.old) }
    ensures { Wrote out.old out.new 0 result (line_of numbers.now) }
{
    let mut at = 0;
    for (k, n) in numbers.iter().enumerate() {
        let p = put_decimal(out, at, u64::from(*n));
        out[p] = if k + 1 == numbers.len() { b'\r' } else { b',' };
        at = p + 1;
    }
    let end = at + 1;
    out[at] = b'\n';
    end
}
