// A list of cases, each `name:bytes;`, on lines of their own or not.
ghost use Rattle.std.specs.Prelude.{◌<◌, length, IfSome};

use crate::run::replayed;

// What stands before the first mark, and what stands after it. None where there is no mark.
fn split_at(text: &[u8], mark: u8) -> Option<(&[u8], &[u8])>
    ensures { IfSome result (λ parts. length parts.1.now < length text.now) }
{
    let at = text.iter().position(|byte| *byte == mark)?;
    Some((&text[..at], &text[at + 1..]))
}

// The last case may lack its `;`.
pub(crate) fn each(rt: HostRuntime, list: &[u8]) {
    let mut rest = list;
    while let Some((name, after)) = split_at(rest, b':') {
        let name = name.strip_prefix(b"\n").unwrap_or(name);
        let (input, next) = split_at(after, b';').unwrap_or((after, b""));
        replayed(rt, name, input);
        rest = next;
    }
}
