// The margin that the program is asked for: its one argument, one to ten digits after an optional minus.
ghost use Rattle.std.specs.Prelude.{◌≤◌, IfSome};
ghost use Rattle.grading.specs.FirstTrip.{longest_wait};

use grading::margin::difference;
use program::{argument, argument_count, number_of};

// A margin has so many digits at most, and so many ticks.
const WIDTH: usize = 10;

const MOST: u64 = 9999999999;

// No ten digits give more than the second test lets pass: it is there for the proof.
fn ticks_of(digits: &[u8]) -> Option<u64>
    ensures { IfSome result (λ ticks. ticks ≤ longest_wait) }
{
    if WIDTH < digits.len() {
        return None;
    }
    number_of(digits).filter(|ticks| *ticks <= MOST)
}

// None where there is no argument, more than one, or one that is no margin.
pub(crate) fn asked_margin(rt: HostRuntime) -> Option<i64> {
    if argument_count(rt) != 2 {
        return None;
    }
    let mut text = [0u8; WIDTH + 1];
    let n = argument(rt, 1, &mut text)?;
    // A difference to 0 has the sign.
    match &text[..n] {
        [b'-', digits @ ..] => Some(difference(0, ticks_of(digits)?)),
        digits => Some(difference(ticks_of(digits)?, 0)),
    }
}
