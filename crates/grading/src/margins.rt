// The ratios at which the margin between two relays is too small, and the smallest margin.
ghost use Rattle.std.specs.Prelude.{◌≡◌, ◌≤◌, ◌<◌, length};
ghost use Rattle.grading.specs.Margins.{ratio_count, margins_of, margins_answer};
ghost use Rattle.grading.specs.device.Pass.{counted, smaller_of};

use crate::margin::{Margin, margin_ready};
use crate::refusal::{Refusal, pair_refusal};
use crate::refusals::SHORT_LIST;
use crate::tripping::Tripping;
use checks::first_failed;
use phase::Settings;

// The refusal stands beside the numbers, and no `Err`: those of a refused call are 0 (`refused_margins`).
// How many ratios were listed; the smallest difference, and the lowest ratio that has it.
#[derive(Clone, Copy)]
pub struct Graded {
    pub refusal: Refusal,
    pub count: usize,
    pub smallest: i64,
    pub ratio: u32,
}

impl Graded {
    // The entries that a list must have room for: one for each ratio.
    pub const RATIO_COUNT: usize = 1900;
}

// The smallest difference so far, and the ratio that had it first.
#[derive(Clone, Copy)]
struct Smallest {
    difference: i64,
    ratio: u32,
}

fn smaller(before: Option<Smallest>, difference: i64, ratio: u32) -> Smallest
    ensures { result ≡ smaller_of before difference ratio }
{
    let next = Smallest { difference, ratio };
    match before {
        None => next,
        Some(least) => if difference < least.difference {
            next
        } else {
            least
        },
    }
}

// Lists a ratio that is too close, after those that were listed before, and answers how many there are. The list is the caller's,
// with a count beside it: there is no heap for one of its own.
fn list_ratio(list: &mut [u32], count: usize, ratio: u32, is_close: bool) -> usize
    requires { count < length list.old }
    ensures { record { count = result; list = list.new } ≡ counted list.old count ratio is_close }
{
    if is_close {
        list[count] = ratio;
        return count + 1;
    }
    count
}

// One pass over the ratios, of relays that were checked before.
fn pass(upstream: Tripping, downstream: Tripping, wanted: i64, list: &mut [u32]) -> Graded
    requires { ratio_count ≤ length list.old }
    ensures { record { answer = result; list = list.new } ≡ margins_of upstream.settings downstream.settings wanted list.old }
{
    let mut count = 0;
    let mut so_far = None;
    for ratio in Margin::LOWEST_RATIO..=Margin::HIGHEST_RATIO {
        let difference = margin_ready(upstream, downstream, ratio).difference;
        count = list_ratio(list, count, ratio, difference < wanted);
        so_far = Some(smaller(so_far, difference, ratio));
    }
    let smallest = so_far.unwrap();
    Graded {
        refusal: Refusal {
            number: 0,
            relay: None,
        },
        count,
        smallest: smallest.difference,
        ratio: smallest.ratio,
    }
}

// Writes into the list the ratios at which upstream's first trip comes less than the wanted ticks after downstream's, in rising
// order; entries past them stay.
pub fn margins(upstream: Settings, downstream: Settings, wanted: i64, list: &mut [u32]) -> Graded
    ensures { record { answer = result; list = list.new } ≡ margins_answer upstream downstream wanted list.old }
{
    let room = Graded::RATIO_COUNT <= list.len();
    let refusal = pair_refusal(upstream, downstream, first_failed(room, SHORT_LIST, 0));
    if refusal.number != 0 {
        return Graded {
            refusal,
            count: 0,
            smallest: 0,
            ratio: 0,
        };
    }
    pass(
        Tripping { settings: upstream },
        Tripping {
            settings: downstream,
        },
        wanted,
        list,
    )
}
