// A text, byte by byte: to its first mark, past its first spaces or sign, and whether all of it is in a range.
ghost use Rattle.std.specs.Prelude.{◌≡◌};
ghost use Rattle.fields.specs.Marks.{unspaced, unmarked, begins_with, all_within};
ghost use Rattle.fields.specs.device.Calls.{Leads, MarkFound};

// How many bytes stand before the first that is one of two marks: all, where none is.
pub fn until(s: &[u8], m: u8, n: u8) -> usize
    ensures { MarkFound m n s.now result }
{
    s.iter().position(|b| *b == m || *b == n).unwrap_or(s.len())
}

// How many spaces a text begins with.
pub fn spaces(s: &[u8]) -> usize
    ensures { Leads s.now (unspaced s.now) result }
{
    s.iter().position(|b| *b != b' ').unwrap_or(s.len())
}

pub(crate) fn begins_with(s: &[u8], m: u8) -> bool
    ensures { result ≡ begins_with m s.now }
{
    matches!(s, [b, ..] if *b == m)
}

// 1 where a text begins with one of two marks, else 0.
pub(crate) fn mark_length(s: &[u8], m: u8, n: u8) -> usize
    ensures { Leads s.now (unmarked m n s.now) result }
{
    match s {
        [b, ..] if *b == m || *b == n => 1,
        _ => 0,
    }
}

// Whether every byte is in a range.
pub fn all_within(s: &[u8], low: u8, high: u8) -> bool
    ensures { result ≡ all_within low high s.now }
{
    s.iter().all(|b| (low..=high).contains(b))
}
