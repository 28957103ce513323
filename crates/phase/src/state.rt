// The phase state: what one phase keeps from tick to tick.
ghost use Rattle.std.specs.Prelude.{◌≡◌};
ghost use Rattle.phase.specs.State.{clear_state, valid, valid_counts, valid_curve, valid_definite, valid_for};

use crate::operation::{Kind, Timing, kind_of};
use crate::settings::{Settings, trip_level};

// `started` is whether the phase was started on its last tick.
#[derive(Clone, Copy, PartialEq, Eq)]
pub struct PhaseState {
    pub sum: u64,
    pub run: u32,
    pub drop: u32,
    pub started: bool,
}

impl PhaseState {
    // Where run and drop stop.
    pub const RUN_LIMIT: u32 = 60000;

    pub fn clear() -> Self
        ensures { result ≡ clear_state }
    {
        Self {
            sum: 0,
            run: 0,
            drop: 0,
            started: false,
        }
    }
}

fn valid_counts(state: PhaseState) -> bool
    ensures { result ≡ valid_counts state }
{
    state.run <= PhaseState::RUN_LIMIT && state.drop <= PhaseState::RUN_LIMIT
}

// One that is not started may have any run and any drop, also such as no ticks leave.
fn valid_definite(state: PhaseState) -> bool
    ensures { result ≡ valid_definite state }
{
    state.sum == 0 && (!state.started || (state.drop == 0 && 0 < state.run))
}

fn valid_curve(state: PhaseState) -> bool
    ensures { result ≡ valid_curve state }
{
    (state.run == 0 || state.drop == 0) && state.started == (0 < state.run)
}

fn valid_for(kind: Kind, state: PhaseState) -> bool
    ensures { result ≡ valid_for kind state }
{
    match kind {
        Kind::Off => state == PhaseState::clear(),
        Kind::On(Timing::Definite) => valid_definite(state),
        Kind::On(Timing::Curve(_)) => valid_curve(state),
    }
}

// Whether a state is valid under these settings.
#[tactic(auto, unfolding(crate::specs::State::valid))]
pub fn is_valid(settings: Settings, state: PhaseState) -> bool
    ensures { result ≡ valid settings state }
{
    state.sum <= trip_level(settings)
        && valid_counts(state)
        && valid_for(kind_of(settings.operation), state)
}
