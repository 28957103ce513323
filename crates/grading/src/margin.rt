// The margin between two relays at a ratio.
ghost use Rattle.std.specs.Prelude.{◌≡◌, ◌≤◌, pos, ◌-ℤ◌};
ghost use Rattle.grading.specs.FirstTrip.{longest_wait};
ghost use Rattle.grading.specs.Margin.{lowest_ratio, highest_ratio, margin_of, margin_answer};

use crate::first_trip::first_trip;
use crate::refusal::{Refusal, pair_refusal};
use crate::refusals::WRONG_RATIO;
use crate::tripping::Tripping;
use checks::{first_failed, in_range};
use phase::Settings;

// The refusal stands beside the numbers, and no `Err`: those of a refused call are 0 (`refused_margin`).
// The first trip tick of each, and upstream's less downstream's.
#[derive(Clone, Copy)]
pub struct Margin {
    pub refusal: Refusal,
    pub upstream: u64,
    pub downstream: u64,
    pub difference: i64,
}

impl Margin {
    pub const LOWEST_RATIO: u32 = 101;

    pub const HIGHEST_RATIO: u32 = 2000;
}

// Upstream's ticks less downstream's, with the sign.
pub fn difference(upstream: u64, downstream: u64) -> i64
    requires { (upstream ≤ longest_wait) × (downstream ≤ longest_wait) }
    ensures { result ≡ pos upstream -ℤ pos downstream }
{
    (upstream as i64) - (downstream as i64)
}

// A margin of relays and a ratio that were checked before.
pub(crate) fn margin_ready(upstream: Tripping, downstream: Tripping, ratio: u32) -> Margin
    requires { (lowest_ratio ≤ ratio) × (ratio ≤ highest_ratio) }
    ensures { result ≡ margin_of upstream.settings downstream.settings ratio }
{
    let above = first_trip(upstream, ratio);
    let below = first_trip(downstream, ratio);
    let apart = difference(above, below);
    Margin {
        refusal: Refusal {
            number: 0,
            relay: None,
        },
        upstream: above,
        downstream: below,
        difference: apart,
    }
}

// Both from clear, each at the ratio of its own setting.
pub fn margin_at(upstream: Settings, downstream: Settings, ratio: u32) -> Margin
    ensures { result ≡ margin_answer upstream downstream ratio }
{
    let right = in_range(Margin::LOWEST_RATIO, Margin::HIGHEST_RATIO, ratio);
    let refusal = pair_refusal(upstream, downstream, first_failed(right, WRONG_RATIO, 0));
    if refusal.number != 0 {
        return Margin {
            refusal,
            upstream: 0,
            downstream: 0,
            difference: 0,
        };
    }
    margin_ready(
        Tripping { settings: upstream },
        Tripping {
            settings: downstream,
        },
        ratio,
    )
}
