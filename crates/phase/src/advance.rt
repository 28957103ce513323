// The state after some equal ticks at once, with no loop. A single tick is a count of 1.
ghost use Rattle.std.specs.Prelude.{◌≡◌};
ghost use Rattle.phase.specs.device.Closed.{count_after, sum_up_after, sum_down_after, advance_by};
ghost use Rattle.phase.specs.device.Pace.{pace_of};
ghost use Rattle.phase.specs.Tick.{run_down, started};

use crate::checked::CheckedSettings;
use crate::operation::{Kind, ResetRule, Timing};
use crate::pace::Pace;
use crate::settings::trip_level;
use crate::state::PhaseState;

// Whether a tick with this sample is started: a phase that was started on its last tick drops out below 95 %, one that was not starts
// above 100 %.
#[tactic(auto, unfolding(crate::specs::Tick::started))]
pub fn is_started(settings: CheckedSettings, state: PhaseState, sample: u32) -> bool
    ensures { result ≡ started settings.settings state sample }
{
    let start_current = settings.settings.start_current;
    if state.started {
        95 * start_current <= sample
    } else {
        100 * start_current < sample
    }
}

// So many ticks with the sample of the pace, from the state on.
#[derive(Clone, Copy)]
pub struct EqualTicks {
    pub settings: CheckedSettings,
    pub pace: Pace,
    pub state: PhaseState,
    pub count: u32,
    pub ghost own_pace: { pace ≡ pace_of settings.settings pace.sample },
}

impl EqualTicks {
    // Run or drop, which goes up by 1 at each tick and stops at its limit.
    fn count_after(self, before: u32) -> u32
        ensures { result ≡ count_after self.count before }
    {
        before.saturating_add(self.count).min(PhaseState::RUN_LIMIT)
    }

    fn sum_up(self, timing: Timing) -> u64
        ensures { result ≡ sum_up_after timing self.settings.settings self.pace.sample self.count self.state.sum }
    {
        match timing {
            Timing::Definite => 0,
            Timing::Curve(_) => {
                let gained = (self.count as u64).saturating_mul(self.pace.gain);
                let level = trip_level(self.settings.settings);
                self.state.sum.saturating_add(gained).min(level)
            }
        }
    }

    fn sum_down(self, timing: Timing, drop: u32) -> u64
        ensures { result ≡ sum_down_after timing self.settings.settings self.pace.sample self.count drop self.state.sum }
    {
        let sum = self.state.sum;
        let reset_time = self.settings.settings.reset_time;
        match timing {
            Timing::Definite => 0,
            Timing::Curve(ResetRule::Iec) => if reset_time <= drop { 0 } else { sum },
            Timing::Curve(ResetRule::Ansi) => {
                let lost = (self.count as u64).saturating_mul(self.pace.loss);
                sum.saturating_sub(lost)
            }
        }
    }

    // What an idle phase keeps of its run.
    fn run_down(self, timing: Timing, drop: u32) -> u32
        ensures { result ≡ run_down timing self.settings.settings drop self.state.run }
    {
        let run = self.state.run;
        let reset_time = self.settings.settings.reset_time;
        match timing {
            Timing::Definite => if reset_time <= drop { 0 } else { run },
            Timing::Curve(_) => 0,
        }
    }

    fn advance_on(self, timing: Timing) -> PhaseState
        ensures { result ≡ advance_by (Kind.On timing) (started self.settings.settings self.state self.pace.sample)
            self.settings.settings self.pace.sample self.count self.state }
    {
        if is_started(self.settings, self.state, self.pace.sample) {
            PhaseState {
                sum: self.sum_up(timing),
                run: self.count_after(self.state.run),
                drop: 0,
                started: true,
            }
        } else {
            let drop = self.count_after(self.state.drop);
            PhaseState {
                sum: self.sum_down(timing, drop),
                run: self.run_down(timing, drop),
                drop,
                started: false,
            }
        }
    }

    // The state after the ticks, one at least, of an operation of that group.
    pub fn advance(self, kind: Kind) -> PhaseState
        ensures { result ≡ advance_by kind (started self.settings.settings self.state self.pace.sample)
            self.settings.settings self.pace.sample self.count self.state }
    {
        match kind {
            Kind::Off => PhaseState::clear(),
            Kind::On(timing) => self.advance_on(timing),
        }
    }
}
