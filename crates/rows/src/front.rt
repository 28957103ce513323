// A row at the front of what is left of a portion, read where it stands. Rows mostly are right, and others are left to `read_row`.
ghost use Rattle.std.specs.Prelude.{◌≡◌, ◌+◌, ◌^◌, ◌≤◌, ◌<◌, leb, length, IfSome};
ghost use Rattle.text.specs.Number.{digit_limit};
ghost use Rattle.rows.specs.device.Front.{front_room, field_from, fields_from, front_answer};

use crate::row::Row;
use faults::reader::is_digit;
use relay::Sample;

// One byte more than the longest row has: where so many stand, none that is read is past the end, whatever they are.
const FRONT_ROOM: usize = 46;

// A right row that is accepted, and the place after it.
#[derive(Clone, Copy)]
pub struct Front {
    pub row: Row,
    pub next: usize,
}

// The number of the digits of a field, and the place after its closer.
#[derive(Clone, Copy)]
struct Field {
    value: u64,
    next: usize,
}

// At most `width` digits from a place on, and the byte after them.
// A loop by hand: with `take_while` and `fold` a row of the replay took half as many instructions again.
fn read_field(s: &[u8], at: usize, width: usize, closer: u8) -> Option<Field>
    requires { (at + width < length s.now) × (width ≤ digit_limit) }
    ensures answer { result ≡ field_from width closer s.now at }
    ensures near { IfSome result (λ f. f.next ≤ at + width + 1) }
    ensures small { IfSome result (λ f. f.value < 10 ^ width) }
{
    let stop = at + width;
    let mut end = at;
    let mut value: u64 = 0;
    while end < stop {
        let b = s[end];
        if !is_digit(b) {
            break;
        }
        value = value * 10 + (b - b'0') as u64;
        end += 1;
    }
    if end == at || s[end] != closer {
        return None;
    }
    Some(Field {
        value,
        next: end + 1,
    })
}

// The six fields of a row and its LF, whatever its number.
// `ROW_WIDTHS` is written out: read from there, a row of the replay took a hundredth more instructions.
#[tactic(auto, unfolding(crate::specs::device::Front::fields_from, crate::specs::device::Front::numbers_from))]
fn read_fields(s: &[u8], at: usize) -> Option<Front>
    requires { at + front_room ≤ length s.now }
    ensures { result ≡ fields_from s.now at }
{
    let number = read_field(s, at, 6, b',')?;
    let stamp = read_field(s, number.next, 10, b',')?;
    let l1 = read_field(s, stamp.next, 7, b',')?;
    let l2 = read_field(s, l1.next, 7, b',')?;
    let l3 = read_field(s, l2.next, 7, b',')?;
    let block = read_field(s, l3.next, 1, b'\r')?;
    let end = block.next;
    if s[end] != b'\n' || 1 < block.value {
        return None;
    }
    Some(Front {
        row: Row {
            number: number.value as u32,
            sample: Sample {
                l1: l1.value as u32,
                l2: l2.value as u32,
                l3: l3.value as u32,
                block: block.value as u8,
            },
        },
        next: end + 1,
    })
}

fn has_room(s: &[u8], at: usize) -> bool
    ensures { result ≡ leb (at + front_room) (length s.now) }
{
    FRONT_ROOM <= s.len() && at <= s.len() - FRONT_ROOM
}

// Reads the row at a place, after a row of number `last`, where it is right and accepted and not among the last bytes.
#[tactic(auto, unfolding(crate::specs::device::Front::front_answer))]
pub fn read_front(s: &[u8], at: usize, last: u32) -> Option<Front>
    ensures { result ≡ front_answer s.now at last }
{
    if !has_room(s, at) {
        return None;
    }
    let front = read_fields(s, at)?;
    if front.row.number as u64 != last as u64 + 1 {
        return None;
    }
    Some(front)
}
