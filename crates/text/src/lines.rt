// The lines of a stream, byte by byte.
ghost use Rattle.std.specs.Prelude.{◌≡◌, ◌<◌, length};
ghost use Rattle.text.specs.Lines.{closed_by};
ghost use Rattle.text.specs.device.Calls.{ByteCut};

// What closes a line: CR LF, or LF alone.
#[derive(Clone, Copy, PartialEq, Eq)]
pub enum Closer {
    CrLf,
    Lf,
}

// What a byte does to the line that has begun.
#[derive(Clone, Copy, PartialEq, Eq)]
pub enum Cut {
    Held,
    Closed,
    TooLong,
}

// Whether a line is closed. (A match: two patterns are shorter than a closure that each client hands on.)
#[tactic(auto, using(crate::proofs::CutLaws::closing_laws))]
fn closes(line: &[u8], closer: Closer) -> bool
    ensures { result ≡ closed_by closer line.now }
{
    match closer {
        Closer::CrLf => matches!(line, [.., b'\r', b'\n']),
        Closer::Lf => matches!(line, [.., b'\n']),
    }
}

// One byte more, after the n bytes held: the line that it closes or makes too long is the first n + 1 bytes of `held`.
pub(crate) fn cut_byte(held: &mut [u8], n: usize, b: u8, limit: usize, closer: Closer) -> Cut
    requires { n < length held.old }
    ensures { ByteCut closer limit n b held.old held.new result }
{
    held[n] = b;
    if closes(&held[..n + 1], closer) {
        Cut::Closed
    } else if n + 1 == limit {
        Cut::TooLong
    } else {
        Cut::Held
    }
}
