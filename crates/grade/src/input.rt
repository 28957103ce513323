// The two settings lines on standard input.
ghost use Rattle.std.specs.Prelude.{IfSome};
ghost use Rattle.io.specs.Counts.{IsPrefixLen};

use grading::refusal::{Relay, lower_of};
use phase::Settings;
use program::read_portion;
use rows::{Refusal, read_settings_line};
use text::cutter::{Cutter, HELD_ROOM};
use text::lines::Closer;

// Two lines, and of a line that is too long more than can be right.
const ROOM: usize = 128;

#[derive(Clone, Copy)]
pub(crate) struct Relays {
    pub(crate) upstream: Settings,
    pub(crate) downstream: Settings,
}

#[derive(Clone, Copy)]
pub(crate) struct RefusedRelay {
    pub(crate) relay: Relay,
    pub(crate) refusal: Refusal,
}

// Reads to the end of the input, or until the memory is full: what comes after that does not matter. None where a read failed, which
// is told. The library's `read_to_end` wants a heap, and its `read_exact` says nothing of a shorter input.
fn read_input(rt: HostRuntime, bytes: &mut [u8]) -> Option<usize>
    ensures { IfSome result (λ n. IsPrefixLen n bytes.new) }
{
    let mut n = 0;
    while n < bytes.len() {
        let count = read_portion(rt, &mut bytes[n..])?;
        if count == 0 {
            break;
        }
        n += count;
    }
    Some(n)
}

// The settings of a line, and the place after it.
#[derive(Clone, Copy)]
struct Line {
    read: Result<Settings, Refusal>,
    next: usize,
}

// The settings line from a place on: it runs to and with the next CR LF, or to the end.
fn read_line(input: &[u8], from: usize) -> Line {
    let piece = Cutter::empty().cut(input, from, HELD_ROOM, Closer::CrLf);
    Line {
        read: read_settings_line(piece.cutter.line()),
        next: piece.next,
    }
}

// Of two refusals: the shape of a line, which has a place, goes before any setting; of the settings the lowest number is told, as of
// two relays.
fn is_downstream_told(upstream: Refusal, downstream: Refusal) -> bool {
    let lower = lower_of(upstream.number, downstream.number, 0);
    upstream.place.is_none()
        && (downstream.place.is_some() || lower.relay == Some(Relay::Downstream))
}

fn relays_of(
    upstream: Result<Settings, Refusal>,
    downstream: Result<Settings, Refusal>,
) -> Result<Relays, RefusedRelay> {
    match (upstream, downstream) {
        (Ok(upstream), Ok(downstream)) => Ok(Relays {
            upstream,
            downstream,
        }),
        (Err(above), Err(below)) if is_downstream_told(above, below) => Err(RefusedRelay {
            relay: Relay::Downstream,
            refusal: below,
        }),
        (Err(refusal), _) => Err(RefusedRelay {
            relay: Relay::Upstream,
            refusal,
        }),
        (_, Err(refusal)) => Err(RefusedRelay {
            relay: Relay::Downstream,
            refusal,
        }),
    }
}

// None where a read failed, which is told.
pub(crate) fn read_relays(rt: HostRuntime) -> Option<Result<Relays, RefusedRelay>> {
    let mut bytes = [0u8; ROOM];
    let n = read_input(rt, &mut bytes)?;
    let input = &bytes[..n];
    let upstream = read_line(input, 0);
    let downstream = read_line(input, upstream.next);
    Some(relays_of(upstream.read, downstream.read))
}
