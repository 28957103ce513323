// The replay fed by portions of its input.
ghost use Rattle.std.specs.Prelude.{◌≡◌, ◌+◌, ◌/◌, ◌≤◌, ◌<◌, length};
ghost use Rattle.std.proofs.lemmas.List.Edits.{sets};
ghost use Rattle.files.specs.Replay.{line_limit, fresh_replay, portion_room, takes, feed_answer, feed_writes};
ghost use Rattle.files.specs.Replay.{last_progress, refusal_at_end, finish_writes, is_stopped, is_answered};
ghost use Rattle.steps.specs.Output.{spread};
ghost use Rattle.files.specs.device.Calls.{PortionFed};

use crate::ahead::run_ahead;
use rows::Refusal;
use steps::{
    Configuration, END_ROOM, EXPLAIN_SPREAD, Form, Progress, RECORD_SPREAD, Stage, after_held,
    end_refusal, on_end, on_line,
};
use text::cutter::Cutter;
use text::lines::{Closer, Cut};
use text::page::Page;

// A row has at most so many bytes, and a settings line fewer.
pub const LONGEST_LINE: usize = 45;

// A line of one byte more is too long.
pub const LINE_LIMIT: usize = LONGEST_LINE + 1;

// What its rows write, how far it has come, and the cutter that holds the line that has begun.
#[derive(Clone, Copy)]
pub struct Replay {
    pub form: Form,
    pub progress: Progress,
    pub cutter: Cutter,
}

// Whether the portion was taken, the state after it, and how many bytes it wrote. No Result: a portion that is not taken hands back
// its state (`feed_answer`), and `docs/SHEET.md` tells the flag.
#[derive(Clone, Copy)]
pub struct Fed {
    pub taken: bool,
    pub state: Replay,
    pub written: usize,
}

impl Replay {
    pub fn fresh(form: Form, configuration: Configuration) -> Self
        ensures { result ≡ fresh_replay form configuration }
    {
        Replay {
            form,
            progress: Progress::fresh(configuration),
            cutter: Cutter::empty(),
        }
    }
}

// The bytes of a portion, line by line: after a line that is closed the rows that stand whole are run ahead. What follows a line
// that is too long is not looked at. A `while`: how far a turn goes, the cutter and the rows run ahead tell.
fn feed_bytes(state: Replay, portion: &[u8], page: &mut Page) -> Replay
    requires { (state.cutter.count < line_limit)
        × (page.old.at + portion_room state.form state.cutter.count (length portion.now) ≤ length page.old.out.now) }
    ensures { PortionFed state portion.now page.old page.new result }
{
    let Replay {
        form,
        mut progress,
        mut cutter,
    } = state;
    let mut i = 0;
    while i < portion.len() {
        let piece = cutter.cut(portion, i, LINE_LIMIT, Closer::CrLf);
        cutter = piece.cutter;
        i = piece.next;
        match piece.cut {
            Cut::Held => {
                return Replay {
                    form,
                    progress,
                    cutter,
                };
            }
            Cut::Closed => {
                let after = on_line(form, progress, cutter.line(), page);
                let ahead = run_ahead(form, after, portion, i, page);
                progress = ahead.reached;
                i = ahead.next;
                cutter = Cutter::empty();
            }
            Cut::TooLong => {
                return Replay {
                    form,
                    progress: on_line(form, progress, cutter.line(), page),
                    cutter: Cutter::empty(),
                };
            }
        }
    }
    Replay {
        form,
        progress,
        cutter,
    }
}

// How many bytes of input an output of `room` bytes has room for.
fn input_for(form: Form, room: usize) -> usize
    ensures { result ≡ room / spread form }
{
    match form {
        Form::Changes => room,
        Form::Record => room / RECORD_SPREAD,
        Form::Explain(_) | Form::ExplainAll => room / EXPLAIN_SPREAD,
    }
}

// Whether a state that holds `held` bytes takes a portion into an output of `room` bytes.
fn takes_portion(form: Form, held: usize, portion: &[u8], room: usize) -> bool
    ensures { result ≡ takes form held (length portion.now) room }
{
    if LINE_LIMIT <= held {
        return false;
    }
    held + portion.len() <= input_for(form, room)
}

// Feeds a portion of the input: what it writes stands at the front of `out`, and the other bytes of `out` stay. An `out` with
// LONGEST_LINE bytes more than the portion suffices for change lines, RECORD_SPREAD times as much for the record, and
// EXPLAIN_SPREAD times as much for explanations.
pub fn feed(state: Replay, portion: &[u8], out: &mut [u8]) -> Fed
    ensures answer { result ≡ feed_answer state portion.now (length out.old) }
    ensures output { out.new ≡ sets out.old 0 (feed_writes state portion.now (length out.old)) }
    ensures within { result.written ≤ length out.new }
{
    if !takes_portion(state.form, state.cutter.count, portion, out.len()) {
        return Fed {
            taken: false,
            state,
            written: 0,
        };
    }
    let mut page = Page { out, at: 0 };
    let state = feed_bytes(state, portion, &mut page);
    Fed {
        taken: true,
        state,
        written: page.at,
    }
}

// The progress at the end of the input: a line that has begun is the last line.
fn last_progress(state: Replay) -> Progress
    ensures { result ≡ last_progress state }
{
    let count = state.cutter.count;
    if count == 0 {
        return state.progress;
    }
    after_held(state.progress, &state.cutter.held, count)
}

// What the end line that `finish` writes tells the number of.
pub fn refusal_at_end(state: Replay) -> Refusal
    ensures { result ≡ refusal_at_end state }
{
    end_refusal(last_progress(state))
}

// Ends the input: writes the end line at the front of `out` and answers its length. Where `out` has less than END_ROOM
// bytes it writes nothing and answers 0.
pub fn finish(state: Replay, out: &mut [u8]) -> usize
    ensures written { result ≡ length (finish_writes state (length out.old)) }
    ensures output { out.new ≡ sets out.old 0 (finish_writes state (length out.old)) }
    ensures within { result ≤ length out.new }
{
    if out.len() < END_ROOM {
        return 0;
    }
    let mut page = Page { out, at: 0 };
    on_end(last_progress(state), &mut page);
    page.at
}

// Whether the replay has stopped: what follows of the input changes nothing any more.
pub fn has_stopped(state: Replay) -> bool
    ensures { result ≡ is_stopped state.progress.stage }
{
    matches!(state.progress.stage, Stage::Stopped(_))
}

// Whether the rows done have come to the one that was asked for: what follows of the input writes nothing any more.
pub fn has_answered(state: Replay) -> bool
    ensures { result ≡ is_answered state.form state.progress.done }
{
    matches!(state.form, Form::Explain(row) if row <= state.progress.done)
}
