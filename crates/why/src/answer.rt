// Why one tick of one phase did or did not trip.
ghost use Rattle.std.specs.Prelude.{◌≡◌};
ghost use Rattle.why.specs.Answer.{why_answer, explained_numbers, why_numbers};

use crate::reason::{Reason, reason_by};
use crate::refusals::WRONG_BLOCK;
use checks::first_failed;
use phase::operation::kind_of;
use phase::tick::{phase_first_failed, tick};
use phase::{PhaseState, Settings};

// Why the tick that these settings, this state before it and this sample give did or did not trip, under a block byte; or the
// refusal's number. Asking changes nothing.
pub fn why(settings: Settings, state: PhaseState, g: u32, block: u8) -> Result<Reason, u32>
    ensures answer { result ≡ why_answer settings state g block }
    ensures numbers { explained_numbers result ≡ why_numbers settings state g block }
{
    let refusal = phase_first_failed(settings, state, first_failed(block <= 1, WRONG_BLOCK, 0));
    if refusal != 0 {
        return Err(refusal);
    }
    let kind = kind_of(settings.operation);
    let ticked = tick(settings, state, g);
    let after = ticked.state;
    Ok(reason_by(kind, settings, ticked.start, after, block))
}
