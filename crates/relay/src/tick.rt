// One tick of the three phases.
ghost use Rattle.std.specs.Prelude.{◌≡◌};
ghost use Rattle.relay.specs.Tick.{relay_tick_of, relay_tick_answer};

use crate::outputs::output_byte;
use crate::refusals::WRONG_BLOCK;
use crate::sample::Sample;
use crate::state::{RelayState, relay_first_failed};
use checks::first_failed;
use phase::tick::tick_ready;
use phase::{CheckedSettings, Settings};

// No Result: the documents tell a refusal by its number, 0 for none, and a refused tick hands back its state, outputs off.
#[derive(Clone, Copy)]
pub struct RelayTicked {
    pub refusal: u32,
    pub state: RelayState,
    pub outputs: u8,
}

// A tick of settings that were checked before, on its own: no plan is made for it.
fn tick_three(settings: CheckedSettings, relay: RelayState, sample: Sample) -> RelayTicked
    ensures { result ≡ relay_tick_of settings.settings relay sample.l1 sample.l2 sample.l3 sample.block }
{
    let a = tick_ready(settings, relay.phases[0], sample.l1);
    let b = tick_ready(settings, relay.phases[1], sample.l2);
    let c = tick_ready(settings, relay.phases[2], sample.l3);
    let outputs = output_byte(
        [a.start, b.start, c.start],
        [a.trip, b.trip, c.trip],
        sample.block,
    );
    RelayTicked {
        refusal: 0,
        state: RelayState {
            phases: [a.state, b.state, c.state],
        },
        outputs,
    }
}

// One tick: refused by the lowest number that applies, else the state and the output byte.
pub fn tick(settings: Settings, state: RelayState, sample: Sample) -> RelayTicked
    ensures { result ≡ relay_tick_answer settings state sample.l1 sample.l2 sample.l3 sample.block }
{
    let own = first_failed(sample.block <= 1, WRONG_BLOCK, 0);
    let refusal = relay_first_failed(settings, state, own);
    if refusal != 0 {
        return RelayTicked {
            refusal,
            state,
            outputs: 0,
        };
    }
    tick_three(CheckedSettings { settings }, state, sample)
}
