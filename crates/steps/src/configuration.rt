// The configuration that may come with a recording: where it stops the replay, and what it changes at the end.
ghost use Rattle.std.specs.Prelude.{◌≡◌};
ghost use Rattle.steps.specs.Configuration.{after_settings, last_refusal};

use crate::progress::Stage;
use crate::refusals::WRONG_LAST_SAMPLE;
use config::Fault;
use rows::{Refusal, refuse};

// None, or what the reader of one answered.
pub type Configuration = Option<Result<u64, Fault>>;

// The stage after an accepted settings line: a refused configuration stops the replay.
pub(crate) fn after_settings(configuration: Configuration) -> Stage
    ensures { result ≡ after_settings configuration }
{
    match configuration {
        Some(Err(fault)) => Stage::Stopped(refuse(fault.refusal)),
        _ => Stage::Running,
    }
}

// What an end line tells that would tell `refusal`, after so many rows done.
pub(crate) fn last_refusal(configuration: Configuration, done: u32, refusal: Refusal) -> Refusal
    ensures { result ≡ last_refusal configuration done refusal }
{
    match configuration {
        Some(Ok(last)) if refusal.number == 0 && last != done as u64 => refuse(WRONG_LAST_SAMPLE),
        _ => refusal,
    }
}
