// Many equal ticks of one phase at once.
ghost use Rattle.std.specs.Prelude.{◌≡◌};
ghost use Rattle.jumps.specs.Jump.{jump_of, jump_answer, jump_number, trip_number};

use crate::first_trip::first_trip;
use crate::refusals::JUMP_TOO_LONG;
use checks::first_failed;
use phase::operation::kind_of;
use phase::pace::pace_of;
use phase::tick::phase_first_failed;
use phase::{CheckedSettings, EqualTicks, PhaseState, Settings};

// The refusal is a number beside the state, and no `Err`: a refused jump hands back the state that it was given.
// `trip` is the first tick with the phase trip on, counted from 1.
#[derive(Clone, Copy)]
pub struct Jumped {
    pub refusal: u32,
    pub state: PhaseState,
    pub trip: Option<u32>,
}

impl Jumped {
    pub const JUMP_LIMIT: u32 = 3600000;
}

// A jump of settings that were checked before.
fn jump_ready(ticks: EqualTicks) -> Jumped
    ensures { result ≡ jump_of ticks.settings.settings ticks.state ticks.pace.sample ticks.count }
{
    if ticks.count == 0 {
        return Jumped {
            refusal: 0,
            state: ticks.state,
            trip: None,
        };
    }
    let kind = kind_of(ticks.settings.settings.operation);
    Jumped {
        refusal: 0,
        state: ticks.advance(kind),
        trip: first_trip(ticks),
    }
}

// Many ticks with one sample: refused by the lowest number that applies, else the state after them and the first of
// them with the phase trip on.
pub fn jump(settings: Settings, state: PhaseState, g: u32, count: u32) -> Jumped
    ensures answer { result ≡ jump_answer settings state g count }
    ensures number { trip_number result.trip ≡ jump_number settings state g count }
{
    let refusal = phase_first_failed(
        settings,
        state,
        first_failed(count <= Jumped::JUMP_LIMIT, JUMP_TOO_LONG, 0),
    );
    if refusal != 0 {
        return Jumped {
            refusal,
            state,
            trip: None,
        };
    }
    let ticks = EqualTicks {
        settings: CheckedSettings { settings },
        pace: pace_of(settings, g),
        state,
        count,
    };
    jump_ready(ticks)
}
