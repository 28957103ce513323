// What the settings come to, so that a tick asks for no group of operations.
ghost use Rattle.std.specs.Prelude.{◌≡◌};
ghost use Rattle.plans.specs.device.Plan.{level_of, delay_of, sum_reset_by, sum_reset_of, run_reset_of};
ghost use Rattle.plans.specs.device.Plan.{on_plan, off_plan, plan_by, plan_of};

use crate::memo::TOP_SAMPLE;
use crate::planned::Planned;
use phase::operation::{Kind, ResetRule, Timing, kind_of};
use phase::settings::trip_level;
use phase::{CheckedSettings, PhaseState, Settings};

// No count gets so far: it stands for never, so that a tick compares alone.
const NO_COUNT: u32 = PhaseState::RUN_LIMIT + 1;

// The largest samples that leave a phase idle, one that was not started and one that was; the sum and the run that a trip takes;
// the drops that clear the sum and the run, and where drop stops.
#[derive(Clone, Copy)]
pub struct Plan {
    pub starts_above: u32,
    pub stays_above: u32,
    pub level: u64,
    pub delay: u32,
    pub sum_reset: u32,
    pub run_reset: u32,
    pub drop_limit: u32,
}

// Definite has no sum: 0 is its level.
fn level_of(timing: Timing, settings: Settings) -> u64
    ensures { result ≡ level_of timing settings }
{
    match timing {
        Timing::Definite => 0,
        Timing::Curve(_) => trip_level(settings),
    }
}

// With start only on, no run gets to a trip. (Else as `delay_of` of `why`: two lines, shorter than a public call for both.)
fn delay_of(timing: Timing, settings: Settings) -> u32
    ensures { result ≡ delay_of timing settings }
{
    if settings.start_only != 0 {
        return NO_COUNT;
    }
    match timing {
        Timing::Definite => settings.definite_delay,
        Timing::Curve(_) => settings.minimum_delay,
    }
}

fn sum_reset_by(rule: ResetRule, settings: Settings) -> u32
    ensures { result ≡ sum_reset_by rule settings }
{
    match rule {
        ResetRule::Iec => settings.reset_time,
        ResetRule::Ansi => NO_COUNT,
    }
}

fn sum_reset_of(timing: Timing, settings: Settings) -> u32
    ensures { result ≡ sum_reset_of timing settings }
{
    match timing {
        Timing::Definite => NO_COUNT,
        Timing::Curve(rule) => sum_reset_by(rule, settings),
    }
}

// The run of a curve is cleared at any drop.
fn run_reset_of(timing: Timing, settings: Settings) -> u32
    ensures { result ≡ run_reset_of timing settings }
{
    match timing {
        Timing::Definite => settings.reset_time,
        Timing::Curve(_) => 0,
    }
}

fn on_plan(timing: Timing, checked: CheckedSettings) -> Plan
    ensures { result ≡ on_plan timing checked.settings }
{
    let settings = checked.settings;
    Plan {
        starts_above: 100 * settings.start_current,
        stays_above: 95 * settings.start_current - 1,
        level: level_of(timing, settings),
        delay: delay_of(timing, settings),
        sum_reset: sum_reset_of(timing, settings),
        run_reset: run_reset_of(timing, settings),
        drop_limit: PhaseState::RUN_LIMIT,
    }
}

// Off starts at no sample, and counts nothing.
fn off_plan() -> Plan
    ensures { result ≡ off_plan }
{
    Plan {
        starts_above: TOP_SAMPLE,
        stays_above: TOP_SAMPLE,
        level: 0,
        delay: NO_COUNT,
        sum_reset: NO_COUNT,
        run_reset: 0,
        drop_limit: 0,
    }
}

fn plan_by(kind: Kind, checked: CheckedSettings) -> Plan
    ensures { result ≡ plan_by kind checked.settings }
{
    match kind {
        Kind::Off => off_plan(),
        Kind::On(timing) => on_plan(timing, checked),
    }
}

pub fn plan_of(checked: CheckedSettings) -> Planned
    ensures { (result.checked ≡ checked) × (result.plan ≡ plan_of checked.settings) }
{
    let plan = plan_by(kind_of(checked.settings.operation), checked);
    Planned { checked, plan }
}
