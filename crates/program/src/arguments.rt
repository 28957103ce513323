// The program's arguments. No contract can say what they are.
ghost use Rattle.std.specs.Prelude.{◌^◌, ◌<◌, length, IfSome};
ghost use Rattle.io.specs.Counts.{IsPrefixLen};
ghost use Rattle.program.specs.Arguments.{NumberRead};

use std::env::{Env, FillError};

// How many there are, the program's own name among them.
pub fn argument_count(rt: HostRuntime) -> usize {
    // One that is there either is empty or does not fit.
    let is_missing = |i: &usize| matches!(rt.arg(*i, &mut []), Err(FillError::NotPresent));
    (0..usize::MAX).find(is_missing).unwrap_or(usize::MAX)
}

// Puts an argument at the front of `buf` and answers its length: none where it is missing or does not fit.
pub fn argument(rt: HostRuntime, i: usize, buf: &mut [u8]) -> Option<usize>
    ensures { IfSome result (λ n. IsPrefixLen n buf.new) }
{
    rt.arg(i, buf).ok()
}

// Puts an argument at the front of `buf` and answers its length: none where it is missing. One that does not fit answers all of
// `buf`: where that has `PATH_ROOM` bytes it is too long for a path, which `open_file` tells in the system's words.
pub fn path_argument(rt: HostRuntime, i: usize, buf: &mut [u8]) -> Option<usize>
    ensures { IfSome result (λ n. IsPrefixLen n buf.new) }
{
    match rt.arg(i, buf) {
        Ok(count) => Some(count),
        Err(FillError::TooLong) => Some(buf.len()),
        Err(FillError::NotPresent) => None,
    }
}

// The number that a text of digits is: none where another byte stands in it, no digit, or more than 64 bits hold.
pub fn number_of(text: &[u8]) -> Option<u64>
    ensures { NumberRead text.now result }
{
    // A plus is no digit, which `parse` would take.
    if let [b'+', ..] = text {
        return None;
    }
    let Ok(text) = std::str::from_utf8(text) else {
        return None;
    };
    text.parse().ok()
}

// The number that an argument is: of at most as many digits as `buf`, into which it is read, has bytes.
pub fn number_argument(rt: HostRuntime, i: usize, buf: &mut [u8]) -> Option<u64>
    ensures { IfSome result (λ n. n < 10 ^ length buf.new) }
{
    let count = argument(rt, i, buf)?;
    number_of(&buf[..count])
}
