// Words: bytes written as they are.
ghost use Rattle.std.specs.Prelude.{◌+◌, ◌≤◌, length};
ghost use Rattle.text.specs.device.Calls.{Wrote};

// Copies words to a place, and answers the place after them. (An output and a place in it, and no type of both: so docs/SHEET.md
// names the calls that write.)
pub fn put_words(out: &mut [u8], at: usize, words: &[u8]) -> usize
    requires { at + length words.now ≤ length out.old }
    ensures { Wrote out.old out.new at result words.now }
{
    let end = at + words.len();
    out[at..end].copy_from_slice(words);
    end
}
