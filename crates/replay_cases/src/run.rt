// A replay in memory: of an input whole, cut at a place, and in small pieces.
ghost use Rattle.std.specs.Prelude.{◌≤◌, ◌<◌, length};

use crate::line::say;
use files::Replay;
use steps::Form;

// Feeds the input, parted at a place, in pieces of at most `step` bytes and ends it; answers how many bytes of `out` that wrote, from
// the front.
fn replay(input: &[u8], cut: usize, step: usize, out: &mut [u8]) -> usize
    requires room { length out.old ≤ 1024 }
    requires advance { 0 < step }
    ensures { result ≤ length out.new }
{
    let mut state = Replay::fresh(Form::Changes, None);
    let mut at = 0;
    let (first, second) = input.split_at(cut.min(input.len()));
    for part in [first, second] {
        for piece in part.chunks(step) {
            let fed = files::feed(state, piece, &mut out[at..]);
            state = fed.state;
            at += fed.written;
        }
    }
    let end = files::finish(state, &mut out[at..]);
    at + end
}

// Whether the input in these portions gives the same bytes as it does whole.
fn alike(input: &[u8], cut: usize, step: usize, whole: &[u8]) -> bool
    requires { 0 < step }
{
    let mut out = [0u8; 1024];
    let n = replay(input, cut, step, &mut out);
    whole == &out[..n]
}

// How long an input is, what its replay writes, and whether its portions matter.
pub(crate) fn replayed(rt: HostRuntime, name: &[u8], input: &[u8]) {
    let mut out = [0u8; 1024];
    let n = replay(input, 0, usize::MAX, &mut out);
    let whole = &out[..n];
    say(rt, name);
    if !(0..input.len()).all(|cut| alike(input, cut, usize::MAX, whole)) {
        say(rt, b" DIFFERS IF CUT");
    }
    if !alike(input, 0, 1, whole) {
        say(rt, b" DIFFERS BYTE BY BYTE");
    }
    let _ = print!(rt; " ({} bytes)\n", input.len());
    say(rt, whole);
}
