// The cutter of a stream into lines, for a stream that comes in portions.
ghost use Rattle.std.specs.Prelude.{◌≡◌, ◌≤◌, ◌<◌};
ghost use Rattle.text.specs.Cutter.{held_room, empty_cutter, held_line, piece_answer, piece_from};

use crate::lines::{Closer, Cut, cut_byte};

// The longest line of any client.
pub const LONGEST_OF_ALL: usize = 256;

// One byte more tells that a line is too long.
pub const HELD_ROOM: usize = LONGEST_OF_ALL + 1;

// The line that has begun: the first `count` bytes of `held`. The count stands beside its memory, which is fixed: no heap.
#[derive(Clone, Copy)]
pub struct Cutter {
    pub held: [u8; HELD_ROOM],
    pub count: usize,
}

// What the last byte of a piece did, the cutter with the piece, and the place after it in the portion.
#[derive(Clone, Copy)]
pub struct PieceCut {
    pub cut: Cut,
    pub cutter: Cutter,
    pub next: usize,
}

// The piece of a line that has room for a byte more.
fn cut_on(cutter: Cutter, portion: &[u8], from: usize, limit: usize, closer: Closer) -> PieceCut
    requires { (cutter.count < limit) × (limit ≤ held_room) }
    ensures { result ≡ piece_from closer limit cutter portion.now from }
{
    let Cutter {
        mut held,
        mut count,
    } = cutter;
    // By index: `from` may be past the end, where no slice begins, and the answer is a place in the portion.
    for i in from..portion.len() {
        let cut = cut_byte(&mut held, count, portion[i], limit, closer);
        count += 1;
        if cut != Cut::Held {
            let cutter = Cutter { held, count };
            return PieceCut {
                cut,
                cutter,
                next: i + 1,
            };
        }
    }
    let cutter = Cutter { held, count };
    PieceCut {
        cut: Cut::Held,
        cutter,
        next: from.max(portion.len()),
    }
}

impl Cutter {
    pub fn empty() -> Self
        ensures { result ≡ empty_cutter }
    {
        Cutter {
            held: [0u8; HELD_ROOM],
            count: 0,
        }
    }

    // The line, as far as it has come.
    pub fn line(&self) -> &[u8]
        ensures { result.now ≡ held_line self.now }
    {
        &self.held[..self.count.min(HELD_ROOM)]
    }

    // Goes on with the bytes of a portion from a place, to and with the first that is not only held. The cutter then holds the
    // line that it closed or that is too long: the client takes it, and goes on with an empty one. A line is too long that has
    // `limit` bytes, or as many as the room, and is not closed.
    pub fn cut(self, portion: &[u8], from: usize, limit: usize, closer: Closer) -> PieceCut
        ensures { result ≡ piece_answer closer limit self portion.now from }
    {
        let limit = limit.min(HELD_ROOM);
        if self.count < limit {
            cut_on(self, portion, from, limit, closer)
        } else {
            PieceCut {
                cut: Cut::TooLong,
                cutter: self,
                next: from,
            }
        }
    }
}
