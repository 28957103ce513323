// The replay, line by line: the settings line, after which the configuration is looked at, then the rows.
ghost use Rattle.std.specs.Prelude.{◌≡◌, ◌+◌, ◌*◌, ◌≤◌, ◌<◌, length, take};
ghost use Rattle.rows.specs.Row.{last_row};
ghost use Rattle.rows.specs.SettingsLine.{settings_line_answer};
ghost use Rattle.steps.specs.Output.{note_room, spread, end_room};
ghost use Rattle.steps.specs.Progress.{fresh_progress, stopped, opened, ticked, stage_refusal, end_refusal, end_of};
ghost use Rattle.steps.specs.Progress.{after_tick, wrote_tick, after_row, wrote_row, after_line, wrote_line};
ghost use Rattle.steps.specs.device.Calls.{Notable};
ghost use Rattle.text.specs.device.Page.{Put};

use crate::configuration::{Configuration, after_settings, last_refusal};
use crate::output::{Form, note_row, put_end};
use phase::Settings;
use relay::RelayState;
use relay::tick::{RelayTicked, tick};
use rows::refusals::NO_DIGIT;
use rows::{Place, Refusal, Row, read_row, read_settings_line, refuse};
use text::page::Page;

// What the next line is to be; after a refusal, what was refused.
#[derive(Clone, Copy)]
pub enum Stage {
    Opening,
    Running,
    Stopped(Refusal),
}

// The configuration, the stage, the settings, the relay's state, the rows done, and the output byte of the last.
#[derive(Clone, Copy)]
pub struct Progress {
    pub configuration: Configuration,
    pub stage: Stage,
    pub settings: Settings,
    pub relay: RelayState,
    pub done: u32,
    pub outputs: u8,
}

impl Progress {
    // Settings of zeros where none came, which every check refuses: a row without settings is so refused.
    pub fn fresh(configuration: Configuration) -> Self
        ensures { result ≡ fresh_progress configuration }
    {
        let settings = Settings {
            operation: 0,
            start_current: 0,
            time_multiplier: 0,
            minimum_delay: 0,
            definite_delay: 0,
            reset_time: 0,
            start_only: 0,
        };
        Progress {
            configuration,
            stage: Stage::Opening,
            settings,
            relay: RelayState::clear(),
            done: 0,
            outputs: 0,
        }
    }
}

fn stop(p: Progress, refusal: Refusal) -> Progress
    ensures { result ≡ stopped refusal p }
{
    Progress {
        stage: Stage::Stopped(refusal),
        ..p
    }
}

fn on_settings_line(p: Progress, line: &[u8]) -> Progress
    ensures { result ≡ opened p (settings_line_answer line.now) }
{
    match read_settings_line(line) {
        Ok(settings) => Progress {
            stage: after_settings(p.configuration),
            settings,
            ..p
        },
        Err(refusal) => stop(p, refusal),
    }
}

// The tick of an accepted row: the row is done where the tick is accepted; else the replay stops.
fn after_tick(p: Progress, t: RelayTicked) -> Progress
    requires { p.done < last_row }
    ensures { result ≡ after_tick p t }
{
    if t.refusal != 0 {
        return stop(p, refuse(t.refusal));
    }
    Progress {
        stage: Stage::Running,
        relay: t.state,
        done: p.done + 1,
        outputs: t.outputs,
        ..p
    }
}

// A row done writes a note.
fn note_tick(form: Form, page: &mut Page, p: Progress, x: Row, t: RelayTicked)
    requires { Notable form p.done x page.old.at (length page.old.out.now) }
    ensures { Put (note_room form) page.old page.new (wrote_tick form p x t) }
{
    if t.refusal == 0 {
        note_row(form, page, p, x, t);
    }
}

fn tick_row(p: Progress, x: Row) -> RelayTicked
    ensures { result ≡ ticked p x }
{
    tick(p.settings, p.relay, x.sample)
}

// A row. What it writes is at most so many times as long as the row itself.
fn on_row(form: Form, p: Progress, line: &[u8], page: &mut Page) -> Progress
    requires { page.old.at + spread form * length line.now ≤ length page.old.out.now }
    ensures progress { result ≡ after_row p line.now }
    ensures wrote { Put (spread form * length line.now) page.old page.new (wrote_row form p line.now) }
{
    match read_row(line, p.done) {
        Ok(x) => {
            let t = tick_row(p, x);
            note_tick(form, page, p, x, t);
            after_tick(p, t)
        }
        Err(refusal) => stop(p, refusal),
    }
}

// One line of the input, which writes on a page.
#[tactic(auto, unfolding(crate::specs::Progress::after_by, crate::specs::Progress::wrote_by))]
pub fn on_line(form: Form, p: Progress, line: &[u8], page: &mut Page) -> Progress
    requires { page.old.at + spread form * length line.now ≤ length page.old.out.now }
    ensures progress { result ≡ after_line p line.now }
    ensures wrote { Put (spread form * length line.now) page.old page.new (wrote_line form p line.now) }
{
    match p.stage {
        Stage::Opening => on_settings_line(p, line),
        Stage::Running => on_row(form, p, line, page),
        Stage::Stopped(_) => p,
    }
}

// A row that writes nothing. Not `on_row` with a form for it: at the end of the input there is no page that has its room.
fn after_row(p: Progress, line: &[u8]) -> Progress
    ensures { result ≡ after_row p line.now }
{
    match read_row(line, p.done) {
        Ok(x) => after_tick(p, tick_row(p, x)),
        Err(refusal) => stop(p, refusal),
    }
}

// A line that writes nothing.
#[tactic(auto, unfolding(crate::specs::Progress::after_by))]
fn after_line(p: Progress, line: &[u8]) -> Progress
    ensures { result ≡ after_line p line.now }
{
    match p.stage {
        Stage::Opening => on_settings_line(p, line),
        Stage::Running => after_row(p, line),
        Stage::Stopped(_) => p,
    }
}

// The line of the first n bytes held, which writes nothing; of all of them, where there are fewer (so docs/SHEET.md has the call).
pub fn after_held(p: Progress, held: &[u8], n: usize) -> Progress
    ensures { result ≡ after_line p (take n held.now) }
{
    after_line(p, &held[..n.min(held.len())])
}

// By the lines alone: where no settings line came, it is one with no digit. No Option: the end line tells 0 where nothing was refused.
#[tactic(auto, using(rows::proofs::SettingsLineLaws::settings_empty), unfolding(crate::specs::Progress::stage_refusal))]
fn stage_refusal(stage: Stage) -> Refusal
    ensures { result ≡ stage_refusal stage }
{
    match stage {
        Stage::Opening => Refusal {
            number: NO_DIGIT,
            place: Some(Place {
                offset: 0,
                field: 1,
            }),
            hint: None,
        },
        Stage::Running => refuse(0),
        Stage::Stopped(refusal) => refusal,
    }
}

// What the end line tells the number of.
pub fn end_refusal(p: Progress) -> Refusal
    ensures { result ≡ end_refusal p }
{
    last_refusal(p.configuration, p.done, stage_refusal(p.stage))
}

// The end line.
pub fn on_end(p: Progress, page: &mut Page)
    requires { page.old.at + end_room ≤ length page.old.out.now }
    ensures { Put end_room page.old page.new (end_of p) }
{
    put_end(page, p.done, end_refusal(p).number);
}
