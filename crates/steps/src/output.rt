// What the rows write, by the form: change lines, rows of the record, or the explanation of one row or of every row; and the end
// line.
ghost use Rattle.std.specs.Prelude.{◌+◌, ◌≤◌, length};
ghost use Rattle.steps.specs.Output.{pair_line, change_line, change_room, change_of, record_row};
ghost use Rattle.steps.specs.Output.{row_explained, explained_of, note_of, note_room};
ghost use Rattle.steps.specs.Output.{end_line, end_room};
ghost use Rattle.explanations.specs.Explanation.{explanation_room};
ghost use Rattle.rows.specs.Row.{last_row};
ghost use Rattle.records.specs.RecordRow.{record_text, longest_record};
ghost use Rattle.steps.specs.declared.output.Form.TheVariants.{Record, Explain};
ghost use Rattle.steps.specs.device.Calls.{Notable};
ghost use Rattle.text.specs.device.Page.{Put};

use crate::progress::Progress;
use explanations::put_explanation;
use records::{RecordRow, write_row};
use relay::tick::RelayTicked;
use rows::Row;
use text::page::Page;

// A line for each change of the output byte; a row of the record for each row done; the explanation of the row of that number; or
// that of each row done. No closure: it is a field of the state that callers copy and hand back (`Replay` of `files`).
#[derive(Clone, Copy)]
pub enum Form {
    Changes,
    Record,
    Explain(u32),
    ExplainAll,
}

// A line of the input that writes a row of the record writes at most so many times its own bytes.
pub const RECORD_SPREAD: usize = 5;

// A line of the input that is explained writes at most so many times its own bytes.
pub const EXPLAIN_SPREAD: usize = 46;

// Room for any end line.
pub const END_ROOM: usize = 26;

// Two decimals with a comma between and LF at the end.
pub(crate) fn put_pair(page: &mut Page, a: u32, b: u32)
    requires { page.old.at + length (pair_line a b) ≤ length page.old.out.now }
    ensures { Put (length (pair_line a b)) page.old page.new (pair_line a b) }
{
    page.decimal(a as u64);
    page.words(b",");
    page.decimal(b as u64);
    page.words(b"\n");
}

// A change line.
fn put_change(page: &mut Page, row: u32, outputs: u8)
    requires { (row ≤ last_row) × (page.old.at + change_room ≤ length page.old.out.now) }
    ensures { Put change_room page.old page.new (change_line row outputs) }
{
    put_pair(page, row, outputs as u32);
}

// The line of a tick whose output byte differs from the one before, and nothing for any other.
pub fn note_change(page: &mut Page, row: u32, outputs: u8, before: u8)
    requires { (row ≤ last_row) × (page.old.at + change_room ≤ length page.old.out.now) }
    ensures { Put change_room page.old page.new (change_of row outputs before) }
{
    if outputs != before {
        put_change(page, row, outputs);
    }
}

// The row of the record after `done` rows. (`Notable` is of form, row and page together, which no value holds.)
fn note_record(page: &mut Page, done: u32, x: Row, outputs: u8)
    requires { Notable Record done x page.old.at (length page.old.out.now) }
    ensures { Put longest_record page.old page.new (record_text (record_row (done + 1) x outputs)) }
{
    let row = RecordRow {
        number: done + 1,
        l1: x.sample.l1,
        l2: x.sample.l2,
        l3: x.sample.l3,
        outputs,
    };
    page.at = write_row(page.out, page.at, row).place;
}

// The explanation of the row after `p`.
fn note_reasons(page: &mut Page, p: Progress, x: Row)
    requires { page.old.at + explanation_room ≤ length page.old.out.now }
    ensures { Put explanation_room page.old page.new (row_explained p x) }
{
    put_explanation(page, p.settings, p.relay, x.sample);
}

// The explanation of the asked row, and nothing for any other.
fn note_explanation(page: &mut Page, row: u32, p: Progress, x: Row)
    requires { Notable (Explain row) p.done x page.old.at (length page.old.out.now) }
    ensures { Put explanation_room page.old page.new (explained_of row p x) }
{
    if p.done + 1 == row {
        note_reasons(page, p, x);
    }
}

// What the row after `p` writes, with its tick.
pub(crate) fn note_row(form: Form, page: &mut Page, p: Progress, x: Row, t: RelayTicked)
    requires { Notable form p.done x page.old.at (length page.old.out.now) }
    ensures { Put (note_room form) page.old page.new (note_of form p x t) }
{
    match form {
        Form::Changes => note_change(page, p.done + 1, t.outputs, p.outputs),
        Form::Record => note_record(page, p.done, x, t.outputs),
        Form::Explain(row) => note_explanation(page, row, p, x),
        Form::ExplainAll => note_reasons(page, p, x),
    }
}

// The end line.
pub(crate) fn put_end(page: &mut Page, done: u32, refusal: u32)
    requires { page.old.at + end_room ≤ length page.old.out.now }
    ensures { Put end_room page.old page.new (end_line done refusal) }
{
    page.words(b"end,");
    put_pair(page, done, refusal);
}
