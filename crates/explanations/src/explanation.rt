// The explanation of a tick, written on a page.
ghost use Rattle.std.specs.Prelude.{◌++◌, ◌+◌, ◌≤◌, length};
ghost use Rattle.explanations.specs.Explanation.{reason_text, state_text, numbers_text, phase_line, explanation};
ghost use Rattle.explanations.specs.Explanation.{reason_room, state_room, numbers_room, name_room, line_room, explanation_room};
ghost use Rattle.text.specs.Number.{decimal, decimal_room};
ghost use Rattle.text.specs.Words.{bytes_of};
ghost use Rattle.text.specs.device.Page.{Put};

use phase::settings::trip_level;
use phase::tick::tick;
use phase::{PhaseState, Settings};
use relay::{RelayState, Sample};
use text::page::Page;
use why::{Reason, why};

// A number and the word before it.
fn put_named(page: &mut Page, word: &[u8], n: u64)
    requires { page.old.at + (length word.now + decimal_room) ≤ length page.old.out.now }
    ensures { Put (length word.now + decimal_room) page.old page.new (word.now ++ decimal n) }
{
    page.words(word);
    page.decimal(n);
}

fn put_lacking(page: &mut Page, words: &[u8], n: u64)
    requires { page.old.at + (length words.now + decimal_room + 8) ≤ length page.old.out.now }
    ensures { Put (length words.now + decimal_room + 8) page.old page.new (words.now ++ decimal n ++ bytes_of " lacking") }
{
    put_named(page, words, n);
    page.words(b" lacking");
}

fn put_reason(page: &mut Page, reason: Reason)
    requires { page.old.at + reason_room ≤ length page.old.out.now }
    ensures { Put reason_room page.old page.new (reason_text reason) }
{
    match reason {
        Reason::OperationOff => page.words(b"operation off"),
        Reason::NotStarted => page.words(b"not started"),
        Reason::StartOnly => page.words(b"start only"),
        Reason::TooFewTicks(n) => put_lacking(page, b"too few ticks running, ", n as u64),
        Reason::SumBelowLevel(n) => put_lacking(page, b"sum below the level, ", n),
        Reason::Blocked => page.words(b"phase trip on, general trip blocked"),
        Reason::Tripped => page.words(b"tripped"),
    }
}

fn put_state(page: &mut Page, state: PhaseState)
    requires { page.old.at + state_room ≤ length page.old.out.now }
    ensures { Put state_room page.old page.new (state_text state) }
{
    put_named(page, b", run ", state.run as u64);
    put_named(page, b", drop ", state.drop as u64);
    put_named(page, b", sum ", state.sum);
}

fn put_numbers(page: &mut Page, sample: u32, after: PhaseState, level: u64)
    requires { page.old.at + numbers_room ≤ length page.old.out.now }
    ensures { Put numbers_room page.old page.new (numbers_text sample after level) }
{
    put_named(page, b"\tsample ", sample as u64);
    put_state(page, after);
    put_named(page, b", trip level ", level);
    page.words(b"\n");
}

// The line of a phase; a refused explanation writes nothing.
fn put_phase(page: &mut Page, name: &[u8], settings: Settings, state: PhaseState, g: u32, block: u8)
    requires { (length name.now ≤ name_room) × (page.old.at + line_room ≤ length page.old.out.now) }
    ensures { Put line_room page.old page.new (phase_line name.now settings state g block) }
{
    if let Ok(reason) = why(settings, state, g, block) {
        page.words(name);
        put_reason(page, reason);
        let after = tick(settings, state, g).state;
        put_numbers(page, g, after, trip_level(settings));
    }
}

// The lines of L1, L2, L3, by the relay's state before the tick. No loop: it would zip names, states and currents for three turns.
pub fn put_explanation(page: &mut Page, settings: Settings, relay: RelayState, sample: Sample)
    requires { page.old.at + explanation_room ≤ length page.old.out.now }
    ensures { Put explanation_room page.old page.new (explanation settings relay sample) }
{
    let Sample { l1, l2, l3, block } = sample;
    put_phase(page, b"L1: ", settings, relay.phases[0], l1, block);
    put_phase(page, b"L2: ", settings, relay.phases[1], l2, block);
    put_phase(page, b"L3: ", settings, relay.phases[2], l3, block);
}
