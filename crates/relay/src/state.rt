// The relay state: the three phases.
ghost use Rattle.std.specs.Prelude.{◌≡◌};
ghost use Rattle.checks.specs.Checks.{first_failed};
ghost use Rattle.relay.specs.State.{clear_relay, valid_relay};
ghost use Rattle.relay.specs.Tick.{relay_checks};

use checks::first_failed;
use phase::refusals::INVALID_STATE;
use phase::settings::settings_first_failed;
use phase::state::is_valid;
use phase::{PhaseState, Settings};

// L1, L2, L3.
#[derive(Clone, Copy)]
pub struct RelayState {
    pub phases: [PhaseState; 3],
}

impl RelayState {
    pub fn clear() -> Self
        ensures { result ≡ clear_relay }
    {
        let clear = PhaseState::clear();
        RelayState {
            phases: [clear, clear, clear],
        }
    }
}

pub fn all_valid(settings: Settings, relay: RelayState) -> bool
    ensures { result ≡ valid_relay settings relay }
{
    let l1 = is_valid(settings, relay.phases[0]);
    let l2 = is_valid(settings, relay.phases[1]);
    let l3 = is_valid(settings, relay.phases[2]);
    l1 & l2 & l3
}

// The lowest number of 1 to 8 that applies, else `rest`.
pub fn relay_first_failed(settings: Settings, relay: RelayState, rest: u32) -> u32
    ensures { result ≡ first_failed (relay_checks settings relay) rest }
{
    settings_first_failed(
        settings,
        first_failed(all_valid(settings, relay), INVALID_STATE, rest),
    )
}
