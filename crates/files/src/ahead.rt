// Rows that stand whole in a portion, one after the other: read where they stand, and ticked by a plan. What is not such a row,
// a wrong one or the last bytes of the portion, is left to the cutter.
ghost use Rattle.std.specs.Prelude.{◌≡◌, ◌+◌, ◌*◌, ◌-◌, ◌≤◌, length};
ghost use Rattle.rows.specs.Row.{last_row};
ghost use Rattle.files.specs.device.Ahead.{is_quick, way_from, progress_on, way_after, change_at};
ghost use Rattle.files.specs.device.Ahead.{WayReady, RowsRan, RanAhead};
ghost use Rattle.text.specs.device.Page.{Put};
ghost use Rattle.steps.specs.Output.{change_room, spread};

use phase::CheckedSettings;
use plans::Planned;
use plans::plan::plan_of;
use relay::state::relay_first_failed;
use relay::step::{Courses, courses_from, relay_of, step};
use rows::{Row, read_front};
use steps::{Form, Progress, Stage, note_change};
use text::page::Page;

// What changes from row to row of a replay that runs.
#[derive(Clone, Copy)]
pub struct Way {
    pub courses: Courses,
    pub done: u32,
    pub outputs: u8,
}

// The way, or the progress, that some rows reached, and the place after them in the portion.
#[derive(Clone, Copy)]
pub struct Ahead<T> {
    pub reached: T,
    pub next: usize,
}

fn way_from(planned: Planned, p: Progress) -> Way
    requires { planned.checked.settings ≡ p.settings }
    ensures { result ≡ way_from p }
{
    Way {
        courses: courses_from(planned, p.relay),
        done: p.done,
        outputs: p.outputs,
    }
}

fn progress_on(p: Progress, way: Way) -> Progress
    ensures { result ≡ progress_on p.configuration p.settings way }
{
    Progress {
        stage: Stage::Running,
        relay: relay_of(way.courses),
        done: way.done,
        outputs: way.outputs,
        ..p
    }
}

// A row that the reader accepted, and the change line that it may write.
fn on_front(planned: Planned, way: Way, x: Row, page: &mut Page) -> Way
    requires { WayReady planned.checked.settings way × (way.done + 1 ≤ last_row)
        × (page.old.at + change_room ≤ length page.old.out.now) }
    ensures way { result ≡ way_after planned.checked.settings way x }
    ensures wrote { Put change_room page.old page.new (change_at planned.checked.settings way x) }
{
    let number = way.done + 1;
    let stepped = step(planned, way.courses, x.sample);
    note_change(page, number, stepped.outputs, way.outputs);
    Way {
        courses: stepped.courses,
        done: number,
        outputs: stepped.outputs,
    }
}

// The rows that follow each other from a place on.
fn run_rows(
    planned: Planned,
    begun: Way,
    portion: &[u8],
    from: usize,
    page: &mut Page,
) -> Ahead<Way>
    requires { WayReady planned.checked.settings begun × (from ≤ length portion.now)
        × (page.old.at + (length portion.now - from) ≤ length page.old.out.now) }
    ensures { RowsRan planned.checked.settings begun portion.now from page.old page.new result }
{
    let mut way = begun;
    let mut next = from;
    while let Some(front) = read_front(portion, next, way.done) {
        way = on_front(planned, way, front.row, page);
        next = front.next;
    }
    Ahead { reached: way, next }
}

// Whether rows may be run so: the replay writes changes and runs, and its settings and state are accepted.
fn is_quick(form: Form, p: Progress) -> bool
    ensures { result ≡ is_quick form p }
{
    matches!(form, Form::Changes)
        & matches!(p.stage, Stage::Running)
        & (relay_first_failed(p.settings, p.relay, 0) == 0)
}

// Runs the rows from a place on as far as they are whole and right; where they may not be run so, none.
pub(crate) fn run_ahead(
    form: Form,
    p: Progress,
    portion: &[u8],
    from: usize,
    page: &mut Page,
) -> Ahead<Progress>
    requires { (from ≤ length portion.now)
        × (page.old.at + spread form * (length portion.now - from) ≤ length page.old.out.now) }
    ensures { RanAhead form p portion.now from page.old page.new result }
{
    if !is_quick(form, p) {
        return Ahead {
            reached: p,
            next: from,
        };
    }
    let settings = p.settings;
    let planned = plan_of(CheckedSettings { settings });
    let ran = run_rows(planned, way_from(planned, p), portion, from, page);
    Ahead {
        reached: progress_on(p, ran.reached),
        next: ran.next,
    }
}
