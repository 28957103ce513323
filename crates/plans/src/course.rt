// A phase on its way from tick to tick by a plan.
ghost use Rattle.std.specs.Prelude.{◌≡◌, ◌+◌, ◌*◌, ◌-◌, ◌≤◌, min, cond, leb};
ghost use Rattle.phase.specs.State.{run_limit};
ghost use Rattle.phase.specs.declared.settings.Settings.{Settings};
ghost use Rattle.plans.specs.device.Course.{course_of, count_to, idle_up_to, after_started_by, after_idle_by, due_by};
ghost use Rattle.plans.specs.device.Course.{turned_of, TurnReady};

use crate::memo::{Memo, memo_at_setting, next_memo};
use crate::plan::Plan;
use crate::planned::Planned;
use phase::PhaseState;

// No ghost field tells that the memory is its settings': a course does not hold them.
#[derive(Clone, Copy)]
pub struct Course {
    pub state: PhaseState,
    pub memo: Memo,
    pub idle_to: u32,
}

// The course after a tick, and the tick's outputs.
#[derive(Clone, Copy)]
pub struct Turned {
    pub course: Course,
    pub start: bool,
    pub trip: bool,
}

// The largest sample that the next tick is idle with, of a phase that was started on its last tick or was not.
fn idle_to(plan: Plan, started: bool) -> u32
    ensures { result ≡ idle_up_to plan started }
{
    if started {
        plan.stays_above
    } else {
        plan.starts_above
    }
}

// A course that begins at a state.
pub fn course_from(planned: Planned, state: PhaseState) -> Course
    ensures { let settings : Settings = planned.checked.settings in
        result ≡ course_of settings state (100 * settings.start_current) }
{
    Course {
        state,
        memo: memo_at_setting(planned.checked),
        idle_to: idle_to(planned.plan, state.started),
    }
}

// A count that goes up by 1 and stops at its limit. No `min`: a count that is above its limit stays.
fn count_to(limit: u32, count: u32) -> u32
    requires { count ≤ run_limit }
    ensures { result ≡ count_to limit count }
{
    if count < limit { count + 1 } else { count }
}

// What is left of a sum, or of a run, with the new drop.
fn kept(reset: u32, drop: u32, left: u64) -> u64
    ensures { (result ≡ cond (leb reset drop) 0 left) × (result ≤ left) }
{
    if reset <= drop { 0 } else { left }
}

// In this order `min` and `is_due` are one comparison of the machine.
fn after_started(plan: Plan, gain: u64, state: PhaseState) -> PhaseState
    requires { (state.sum ≤ 1500000000000) × (gain ≤ 1000000000000) × (state.run ≤ run_limit) }
    ensures { result ≡ after_started_by plan gain state }
{
    PhaseState {
        sum: plan.level.min(state.sum + gain),
        run: count_to(PhaseState::RUN_LIMIT, state.run),
        drop: 0,
        started: true,
    }
}

fn after_idle(plan: Plan, loss: u64, state: PhaseState) -> PhaseState
    requires { state.drop ≤ run_limit }
    ensures { result ≡ after_idle_by plan loss state }
{
    let drop = count_to(plan.drop_limit, state.drop);
    PhaseState {
        sum: kept(plan.sum_reset, drop, state.sum.saturating_sub(loss)),
        run: kept(plan.run_reset, drop, state.run as u64) as u32,
        drop,
        started: false,
    }
}

fn is_due(plan: Plan, after: PhaseState) -> bool
    ensures { result ≡ due_by plan after }
{
    (plan.level <= after.sum) & (plan.delay <= after.run)
}

// One tick.
pub fn turn(planned: Planned, course: Course, sample: u32) -> Turned
    requires { TurnReady planned.checked.settings course }
    ensures { result ≡ turned_of planned.checked.settings course.state sample }
{
    let plan = planned.plan;
    let state = course.state;
    let memo = next_memo(planned.checked, course.memo, sample);
    if course.idle_to < sample {
        let after = after_started(plan, memo.gain, state);
        Turned {
            course: Course {
                state: after,
                memo,
                idle_to: plan.stays_above,
            },
            start: true,
            trip: is_due(plan, after),
        }
    } else {
        Turned {
            course: Course {
                state: after_idle(plan, memo.loss, state),
                memo,
                idle_to: plan.starts_above,
            },
            start: false,
            trip: false,
        }
    }
}
