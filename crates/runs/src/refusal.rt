// Why a recording was refused, in one line on standard error.
ghost use Rattle.std.specs.Prelude.{◌≡◌};
ghost use Rattle.files.specs.Replay.{refusal_at_end};

use files::Replay;
use program::{say, say_text};
use rows::Refusal;
use steps::refusals::WRONG_LAST_SAMPLE;
use steps::{END_ROOM, Form};
use words::say_reason;

// The end line without its LF.
fn say_end(rt: HostRuntime, state: Replay) {
    let mut out = [0u8; END_ROOM];
    let w = files::finish(state, &mut out);
    say(rt, &out[..w - 1]);
    say(rt, b": ");
}

// What was refused: the settings that a replay holds pass their check once a settings line was accepted; after it a line of the
// configuration, of which none is number 0, or the row due.
fn say_what(rt: HostRuntime, state: Replay, refusal: Refusal) {
    let progress = state.progress;
    if progress.settings.check() != 0 {
        say(rt, b"settings line");
    } else if refusal.number == WRONG_LAST_SAMPLE {
        say(rt, b"recording");
    } else if let Some(Err(fault)) = progress.configuration
        && fault.line != 0
    {
        say_text(rt, format_args!("line {} of the configuration", fault.line));
    } else {
        say_text(rt, format_args!("row {}", progress.done as u64 + 1));
    }
}

// Says nothing where nothing was refused. Answers the refusal's number, which is all that a contract can say of it.
pub fn tell(rt: HostRuntime, state: Replay) -> u32
    ensures { result ≡ (refusal_at_end state).number }
{
    let refusal = files::refusal_at_end(state);
    if refusal.number == 0 {
        return refusal.number;
    }
    // The record has no end line on standard output: it begins what is said.
    if matches!(state.form, Form::Record) {
        say_end(rt, state);
    }
    say_what(rt, state, refusal);
    say_reason(rt, refusal)
}
