// A portion of standard input, or of a file that is open.
ghost use Rattle.std.specs.Prelude.{IfSome, IfOk};
ghost use Rattle.io.specs.Counts.{IsPrefixLen};

use crate::failure::{EINTR, say_failure};
use std::io::{Error, ErrorKind, Read, Result};

// A function must be seen to end. No call is interrupted so often.
fn read<R: Read>(from: &mut R, buf: &mut [u8]) -> Result<usize>
    ensures { IfOk result (λ n. IsPrefixLen n buf.new) }
{
    for _ in 0..u64::MAX {
        match from.read(buf) {
            Err(error) if error.kind() == ErrorKind::Interrupted => {}
            done => return done,
        }
    }
    Err(Error::from_raw_os_error(EINTR))
}

// Reads once into the front of `buf` and answers how many bytes: 0 at the end of the input. A read that fails is told on standard
// error, with the name, and answers none.
pub fn read_portion_of<R: Read>(
    rt: HostRuntime,
    from: &mut R,
    name: &[u8],
    buf: &mut [u8],
) -> Option<usize>
    ensures { IfSome result (λ n. IsPrefixLen n buf.new) }
{
    match read(from, buf) {
        Ok(count) => Some(count),
        Err(error) => {
            say_failure(rt, "reading ", name, error);
            None
        }
    }
}

pub fn read_portion(rt: HostRuntime, buf: &mut [u8]) -> Option<usize>
    ensures { IfSome result (λ n. IsPrefixLen n buf.new) }
{
    read_portion_of(rt, &mut rt.stdin(), b"standard input", buf)
}
