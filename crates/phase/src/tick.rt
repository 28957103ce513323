// One tick of one phase.
ghost use Rattle.std.specs.Prelude.{◌≡◌};
ghost use Rattle.checks.specs.Checks.{first_failed};
ghost use Rattle.phase.specs.Tick.{due, start_by, trip_by, tick_of, phase_checks, tick_answer};

use crate::advance::{EqualTicks, is_started};
use crate::checked::CheckedSettings;
use crate::operation::{Kind, Timing, kind_of};
use crate::pace::pace_of;
use crate::refusals::INVALID_STATE;
use crate::settings::{Settings, settings_first_failed, trip_level};
use crate::state::{PhaseState, is_valid};
use checks::first_failed;

// The refusal is a number beside the state, and no `Err`: a refused tick hands back the state that it was given.
#[derive(Clone, Copy)]
pub struct Ticked {
    pub refusal: u32,
    pub state: PhaseState,
    pub start: bool,
    pub trip: bool,
}

// Whether the trip is due in the state after a started tick.
fn is_due(timing: Timing, settings: Settings, after: PhaseState) -> bool
    ensures { result ≡ due timing settings after }
{
    match timing {
        Timing::Definite => settings.definite_delay <= after.run,
        Timing::Curve(_) => {
            trip_level(settings) <= after.sum && settings.minimum_delay <= after.run
        }
    }
}

// The start output.
fn start_by(kind: Kind, started: bool) -> bool
    ensures { result ≡ start_by kind started }
{
    matches!(kind, Kind::On(_)) && started
}

// The trip output, with the state after the tick.
fn trip_by(kind: Kind, started: bool, settings: Settings, after: PhaseState) -> bool
    ensures { result ≡ trip_by kind started settings after }
{
    match kind {
        Kind::Off => false,
        Kind::On(timing) => {
            started && settings.start_only == 0 && is_due(timing, settings, after)
        }
    }
}

// A tick of settings that were checked before.
pub fn tick_ready(settings: CheckedSettings, state: PhaseState, g: u32) -> Ticked
    ensures { result ≡ tick_of settings.settings state g }
{
    let kind = kind_of(settings.settings.operation);
    let started = is_started(settings, state, g);
    let once = EqualTicks {
        settings,
        pace: pace_of(settings.settings, g),
        state,
        count: 1,
    };
    let after = once.advance(kind);
    Ticked {
        refusal: 0,
        state: after,
        start: start_by(kind, started),
        trip: trip_by(kind, started, settings.settings, after),
    }
}

// The lowest number of 1 to 8 that applies, else `rest`.
pub fn phase_first_failed(settings: Settings, state: PhaseState, rest: u32) -> u32
    ensures { result ≡ first_failed (phase_checks settings state) rest }
{
    settings_first_failed(
        settings,
        first_failed(is_valid(settings, state), INVALID_STATE, rest),
    )
}

// One tick: refused by the lowest number that applies, else the state and the outputs of rules 1 to 5.
pub fn tick(settings: Settings, state: PhaseState, g: u32) -> Ticked
    ensures { result ≡ tick_answer settings state g }
{
    let refusal = phase_first_failed(settings, state, 0);
    if refusal != 0 {
        return Ticked {
            refusal,
            state,
            start: false,
            trip: false,
        };
    }
    tick_ready(CheckedSettings { settings }, state, g)
}
