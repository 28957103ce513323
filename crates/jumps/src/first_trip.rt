// The first of some equal ticks with the phase trip on, with no loop.
ghost use Rattle.std.specs.Prelude.{◌≡◌, ◌<◌};
ghost use Rattle.jumps.specs.Jump.{trip_tick};
ghost use Rattle.jumps.specs.device.FirstTrip.{one_of, wait_for, first_full, first_due, first_trip_by};
ghost use Rattle.phase.specs.Operation.{kind_of};
ghost use Rattle.phase.specs.Tick.{started};

use phase::EqualTicks;
use phase::advance::is_started;
use phase::operation::{Kind, Timing, kind_of};
use phase::settings::trip_level;

// Tick k, where that is one of the n.
fn one_of(n: u32, k: u64) -> Option<u32>
    requires { 0 < k }
    ensures { result ≡ trip_tick (one_of n k) }
{
    if k <= n as u64 { Some(k as u32) } else { None }
}

// The first tick at which a count has reached a delay.
fn wait_for(delay: u32, run: u32) -> u64
    ensures { result ≡ wait_for delay run }
{
    delay.saturating_sub(run).max(1) as u64
}

// The first tick at which a sum is full, once the wait is over. To the ratio 100 it stands still; from 101 on it grows by the gain,
// which is never 0 there.
fn first_full(n: u32, wait: u64, level: u64, sum: u64, ratio: u32, gain: u64) -> Option<u32>
    requires some_wait { 0 < wait }
    requires some_gain { 100 < ratio → 0 < gain }
    ensures { result ≡ trip_tick (first_full n wait level sum ratio gain) }
{
    if ratio <= 100 {
        if sum < level {
            return None;
        }
        return one_of(n, wait);
    }
    let turns = level.saturating_sub(sum).div_ceil(gain);
    one_of(n, wait.max(turns))
}

fn first_due(ticks: EqualTicks, timing: Timing) -> Option<u32>
    requires { kind_of ticks.settings.settings.operation ≡ Kind.On timing }
    ensures { result ≡ trip_tick (first_due timing ticks.settings.settings ticks.pace.sample ticks.count ticks.state) }
{
    let settings = ticks.settings.settings;
    let state = ticks.state;
    match timing {
        Timing::Definite => one_of(ticks.count, wait_for(settings.definite_delay, state.run)),
        Timing::Curve(_) => {
            let wait = wait_for(settings.minimum_delay, state.run);
            let ratio = curve::ratio_of(ticks.pace.sample, settings.start_current);
            let level = trip_level(settings);
            first_full(ticks.count, wait, level, state.sum, ratio, ticks.pace.gain)
        }
    }
}

pub(crate) fn first_trip(ticks: EqualTicks) -> Option<u32>
    ensures { result ≡ trip_tick (first_trip_by (kind_of ticks.settings.settings.operation)
        (started ticks.settings.settings ticks.state ticks.pace.sample)
        ticks.settings.settings ticks.pace.sample ticks.count ticks.state) }
{
    let settings = ticks.settings.settings;
    let started = is_started(ticks.settings, ticks.state, ticks.pace.sample);
    match kind_of(settings.operation) {
        Kind::On(timing) if started && settings.start_only == 0 => first_due(ticks, timing),
        _ => None,
    }
}
