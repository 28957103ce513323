// What a call on two relays is refused with, and the relay that this names.
ghost use Rattle.std.specs.Prelude.{◌≡◌};
ghost use Rattle.checks.specs.Checks.{lowest};
ghost use Rattle.grading.specs.Refusal.{graded_checks, pair_refusal};
ghost use Rattle.grading.specs.device.Lower.{lower_of};

use crate::refusals::NOT_GRADED;
use checks::first_failed;
use phase::Settings;
use phase::settings::settings_first_failed;

#[derive(Clone, Copy, PartialEq, Eq)]
pub enum Relay {
    Upstream,
    Downstream,
}

// A number of 0 is no refusal, as the end line tells it; one that is of neither relay names none.
#[derive(Clone, Copy, PartialEq, Eq)]
pub struct Refusal {
    pub number: u32,
    pub relay: Option<Relay>,
}

// What one relay is refused with, 0 for nothing.
fn graded_first_failed(settings: Settings) -> u32
    ensures { result ≡ lowest (graded_checks settings) }
{
    // By number: the curves are those from 2 on.
    let trips = 2 <= settings.operation && settings.start_only == 0;
    settings_first_failed(settings, first_failed(trips, NOT_GRADED, 0))
}

// Of what two relays are refused with, 0 for nothing, the lower number, upstream's where both have it; else `rest`. (docs/SHEET.md
// names the call, with numbers.)
pub fn lower_of(upstream: u32, downstream: u32, rest: u32) -> Refusal
    ensures { result ≡ lower_of upstream downstream rest }
{
    let of_upstream = Refusal {
        number: upstream,
        relay: Some(Relay::Upstream),
    };
    let of_downstream = Refusal {
        number: downstream,
        relay: Some(Relay::Downstream),
    };
    match (upstream, downstream) {
        (0, 0) => Refusal {
            number: rest,
            relay: None,
        },
        (0, _) => of_downstream,
        (_, 0) => of_upstream,
        _ => if upstream <= downstream {
            of_upstream
        } else {
            of_downstream
        },
    }
}

// What two relays are refused with, else `rest`, which names neither.
pub(crate) fn pair_refusal(upstream: Settings, downstream: Settings, rest: u32) -> Refusal
    ensures { result ≡ pair_refusal upstream downstream rest }
{
    lower_of(
        graded_first_failed(upstream),
        graded_first_failed(downstream),
        rest,
    )
}
