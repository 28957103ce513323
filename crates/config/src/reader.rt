// The reader of a configuration, fed by portions of the file.
ghost use Rattle.std.specs.Prelude.{◌≡◌, true, ◌<◌, unwrap_or};
ghost use Rattle.config.specs.Config.{config_number, last_after};
ghost use Rattle.config.specs.Reader.{fresh_reader, number_due, is_right_at, refused, after_line, malformed};
ghost use Rattle.config.specs.Reader.{line_limit, taken, take_answer, last_reading, end_refusal, end_answer};

use crate::line::{LONGEST_LINE, is_right_at, last_sample};
use crate::refusals::MULTIPLIER;
use crate::shape::{LAST_LINE, shape_at};
use checks::in_range;
use text::cutter::Cutter;
use text::lines::{Closer, Cut};

// A line of one byte more is too long.
const LINE_LIMIT: usize = LONGEST_LINE + 1;

// The rate and the last sample number stand in this line.
const RATE_LINE: u32 = 9;

// The refusal number, and the number of the line.
#[derive(Clone, Copy, PartialEq, Eq)]
pub struct Fault {
    pub refusal: u32,
    pub line: u32,
}

// The number of the line that is due, the last sample number, and the refusal, where there is one.
#[derive(Clone, Copy)]
pub struct Reading {
    pub line: u32,
    pub last: u64,
    pub refusal: Option<u32>,
}

// How far it has come, and the cutter that holds the line that has begun.
#[derive(Clone, Copy)]
pub struct Reader {
    pub reading: Reading,
    pub cutter: Cutter,
}

// The refusal number of the line that is due, after the last that of the multiplier.
fn number_due(line: u32) -> u32
    ensures { result ≡ number_due line }
{
    if in_range(1, LAST_LINE, line) {
        shape_at((line - 1) as usize).number
    } else {
        MULTIPLIER
    }
}

fn refuse(r: Reading) -> Reading
    ensures { result ≡ refused r }
{
    Reading {
        refusal: Some(number_due(r.line)),
        ..r
    }
}

// A line that is malformed, whatever its bytes.
fn malformed(r: Reading) -> Reading
    ensures { result ≡ malformed r }
{
    if r.refusal.is_none() { refuse(r) } else { r }
}

// The last sample number after a right line.
fn last_after(line: u32, l: &[u8], last: u64) -> u64
    requires { is_right_at line l.now ≡ true }
    ensures { result ≡ last_after line l.now last }
{
    if line == RATE_LINE {
        last_sample(l)
    } else {
        last
    }
}

fn on_line(r: Reading, l: &[u8]) -> Reading
    ensures { result ≡ after_line r l.now }
{
    if r.refusal.is_some() {
        return r;
    }
    if !is_right_at(r.line, l) {
        return refuse(r);
    }
    Reading {
        line: r.line + 1,
        last: last_after(r.line, l, r.last),
        refusal: None,
    }
}

// The bytes of a portion, line by line: what follows a line that is too long is not looked at. (Not one loop with `feed_bytes` of
// files, which writes, and runs rows ahead.)
fn take_bytes(state: Reader, portion: &[u8]) -> Reader
    requires { state.cutter.count < line_limit }
    ensures { result ≡ taken state portion.now }
{
    let Reader {
        mut reading,
        mut cutter,
    } = state;
    // A turn is a piece of the cutter's, as long as it comes: no iterator goes by those.
    let mut i = 0;
    while i < portion.len() {
        let piece = cutter.cut(portion, i, LINE_LIMIT, Closer::CrLf);
        cutter = piece.cutter;
        i = piece.next;
        match piece.cut {
            Cut::Held => {
                return Reader { reading, cutter };
            }
            Cut::Closed => {
                reading = on_line(reading, cutter.line());
                cutter = Cutter::empty();
            }
            Cut::TooLong => {
                return Reader {
                    reading: malformed(reading),
                    cutter: Cutter::empty(),
                };
            }
        }
    }
    Reader { reading, cutter }
}

// The reading at the end of the file: a line that has begun and is not closed is malformed.
fn last_reading(state: Reader) -> Reading
    ensures { result ≡ last_reading state }
{
    if state.cutter.count == 0 {
        state.reading
    } else {
        malformed(state.reading)
    }
}

fn end_refusal(r: Reading) -> Option<u32>
    ensures { result ≡ end_refusal r }
{
    if r.refusal.is_some() {
        r.refusal
    } else if LAST_LINE < r.line {
        None
    } else {
        Some(number_due(r.line))
    }
}

impl Reader {
    pub fn fresh() -> Self
        ensures { result ≡ fresh_reader }
    {
        Reader {
            reading: Reading {
                line: 1,
                last: 0,
                refusal: None,
            },
            cutter: Cutter::empty(),
        }
    }

    // Reads a portion of the file.
    pub fn take(self, portion: &[u8]) -> Reader
        ensures { result ≡ take_answer self portion.now }
    {
        if self.cutter.count < LINE_LIMIT {
            return take_bytes(self, portion);
        }
        Reader {
            reading: malformed(self.reading),
            cutter: Cutter::empty(),
        }
    }

    // What the file gives, at its end: the last sample number, or what was refused.
    pub fn finish(self) -> Result<u64, Fault>
        ensures answer { result ≡ end_answer self }
        ensures number { config_number result ≡ unwrap_or (end_refusal (last_reading self)) 0 }
    {
        let reading = last_reading(self);
        match end_refusal(reading) {
            None => Ok(reading.last),
            Some(refusal) => Err(Fault {
                refusal,
                line: reading.line,
            }),
        }
    }
}
