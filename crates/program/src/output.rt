// Bytes to standard output and standard error. No contract can say what reaches a file: these say that no more bytes are
// answered as taken than were lent.
ghost use Rattle.std.specs.Prelude.{◌≡◌, ◌+◌, ◌≤◌, IfSome, IsTrue, is_ok, length};
ghost use Rattle.io.specs.Counts.{IsPrefixLen};
ghost use Rattle.program.specs.Output.{NumberSaid};

use crate::failure::{EINTR, say_failure};
use io::decimal;
use std::fmt;
use std::fmt::{Display, Formatter};
use std::io::{Error, ErrorKind, Result, Write};

// How many bytes were taken, and what ended it: `Ok` where nothing failed. The count is there beside an error too: `write_out` and
// `say` promise it.
#[derive(Drop)]
struct Written {
    count: usize,
    ended: Result<()>,
}

// Writes the bytes; where they were not all taken, a write failed.
fn write_all<W: Write>(to: &mut W, bytes: &[u8]) -> Written
    ensures { IsPrefixLen result.count bytes.now }
{
    let mut count = 0;
    let mut ended = Err(Error::from_raw_os_error(EINTR));
    // A function must be seen to end. No output takes so many calls.
    for _ in 0..u64::MAX {
        if count == bytes.len() {
            ended = Ok(());
            break;
        }
        match to.write(&bytes[count..]) {
            Ok(0) => {
                ended = Err(Error::from(ErrorKind::WriteZero));
                break;
            }
            Ok(taken) => count += taken,
            Err(error) if error.kind() == ErrorKind::Interrupted => {}
            Err(error) => {
                ended = Err(error);
                break;
            }
        }
    }
    Written { count, ended }
}

// Writes to standard output and answers how many bytes were taken: fewer than all where a write failed, which is told on
// standard error.
pub fn write_out(rt: HostRuntime, bytes: &[u8]) -> usize
    ensures { IsPrefixLen result bytes.now }
{
    let Written { count, ended } = write_all(&mut rt.stdout(), bytes);
    was_taken(rt, ended);
    count
}

// Words for a person, on standard error; answers how many bytes were taken.
pub fn say(rt: HostRuntime, words: &[u8]) -> usize
    ensures { IsPrefixLen result words.now }
{
    write_all(&mut rt.stderr(), words).count
}

// Standard error, as a format writes on it, and how many bytes were taken: a piece that is not taken keeps back none that follows.
#[derive(Drop)]
struct Said {
    rt: HostRuntime,
    count: usize,
}

impl fmt::Write for Said {
    ghost write_str_gives = { λ before piece after. after.count ≤ before.count + length piece };

    fn write_str(&mut self, piece: &str) -> fmt::Result {
        let taken = say(self.rt, piece.as_bytes());
        self.count = self.count.saturating_add(taken);
        Ok(())
    }
}

// A text for a person, on standard error; answers how many bytes were taken.
pub fn say_text<D: Display + Drop>(rt: HostRuntime, text: D) -> usize
    ensures { IfSome (D.output text) (λ bytes. result ≤ length bytes) }
{
    let mut said = Formatter::new(Said { rt, count: 0 });
    match said.write(text) {
        Ok(()) => said.into_inner().count,
        Err(_) => 0,
    }
}

// A number for a person, on standard error: the fewest decimal digits that hold it. Answers how many of them were taken, which a
// format would not: docs/SHEET.md promises it.
pub fn say_number(rt: HostRuntime, n: u64) -> usize
    ensures { NumberSaid n result }
{
    let mut text = [0u8; 20];
    let count = decimal(n, &mut text);
    say(rt, &text[..count])
}

// Whether what was written on standard output was taken: where it was not, that is told on standard error.
pub fn was_taken(rt: HostRuntime, printed: Result<()>) -> bool
    ensures { result ≡ is_ok printed }
{
    match printed {
        Ok(()) => true,
        Err(error) => {
            say_failure(rt, "writing ", b"standard output", error);
            false
        }
    }
}

// More than any line has that a program prints.
const LINE_ROOM: usize = 128;

// The line that a format writes, as far as it has come.
#[derive(Drop)]
struct Line {
    bytes: [u8; LINE_ROOM],
    count: usize,
    ghost within: { count ≤ 128 },
}

impl fmt::Write for Line {
    ghost write_str_gives = { λ before piece after. before.count + length piece ≤ after.count };

    fn write_str(&mut self, piece: &str) -> fmt::Result {
        let piece = piece.as_bytes();
        let free = &mut self.bytes[self.count..];
        if free.len() < piece.len() {
            return Err(fmt::Error);
        }
        free[..piece.len()].copy_from_slice(piece);
        self.count += piece.len();
        Ok(())
    }
}

// Prints a line on standard output, in one call where that takes it whole, and answers whether all of it was taken: where it was
// not, that is told on standard error. A line of more than LINE_ROOM bytes is not.
pub fn print_line<D: Display + Drop>(rt: HostRuntime, line: D) -> bool
    ensures { IsTrue result → IfSome (D.output line) (λ bytes. length bytes ≤ 128) }
{
    let mut text = Formatter::new(Line {
        bytes: [0; LINE_ROOM],
        count: 0,
    });
    let formatted = text.write(line).is_ok();
    let Line { bytes, count } = text.into_inner();
    formatted && write_out(rt, &bytes[..count]) == count
}
