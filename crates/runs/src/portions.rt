// The replay of standard input, portion by portion.
ghost use Rattle.std.specs.Prelude.{◌≡◌, ◌≤◌, length};
ghost use Rattle.std.proofs.lemmas.List.Edits.{sets};
ghost use Rattle.files.specs.Replay.{longest_line, fresh_replay, portion_room, fed, fed_by, writes, Reached};
ghost use Rattle.files.specs.device.Calls.{Sound};
ghost use Rattle.runs.specs.Portions.{reached_by};

use files::{Fed, Replay};
use program::{read_portion, write_out};
use steps::{Configuration, Form};

// "It reads input in portions of at most 64 KiB."
pub const PORTION: usize = 65536;

// Every portion is taken: what it writes stands at the front of `out`.
fn take_portion(state: Replay, portion: &[u8], out: &mut [u8]) -> Fed
    requires { (Sound state) × (portion_room state.form longest_line (length portion.now) ≤ length out.old) }
    ensures fed { result ≡ fed_by state portion.now }
    ensures output { out.new ≡ sets out.old 0 (writes state portion.now) }
    ensures within { result.written ≤ length out.new }
{
    files::feed(state, portion, out)
}

// Takes a portion and writes what it gives. An error has the state too: a write failed, which is told.
fn one_turn(
    rt: HostRuntime,
    state: Replay,
    portion: &[u8],
    out: &mut [u8],
) -> Result<Replay, Replay>
    requires { (Sound state) × (portion_room state.form longest_line (length portion.now) ≤ length out.old) }
    ensures { reached_by result ≡ fed state portion.now }
{
    let fed = take_portion(state, portion, out);
    if write_out(rt, &out[..fed.written]) != fed.written {
        return Err(fed.state);
    }
    Ok(fed.state)
}

// To the end of the input, to a refusal, or to the row that was asked for: what follows would write nothing. An error is the state
// that was reached where a read or a write failed, which is told on standard error. Of the input no contract can say more than that it
// came in some portions. The program lends the memory, since a form decides how much a portion may write, and to make it anew at each
// turn is dear.
pub fn run(
    rt: HostRuntime,
    form: Form,
    configuration: Configuration,
    portion: &mut [u8],
    out: &mut [u8],
) -> Result<Replay, Replay>
    requires { portion_room form longest_line (length portion.old) ≤ length out.old }
    ensures { Reached (fresh_replay form configuration) (reached_by result) }
{
    let mut state = Replay::fresh(form, configuration);
    // A function must be seen to end. No input has so many portions.
    for _ in 0..u64::MAX {
        let n = read_portion(rt, portion).ok_or(state)?;
        if n == 0 {
            break;
        }
        state = one_turn(rt, state, &portion[..n], out)?;
        if files::has_stopped(state) | files::has_answered(state) {
            break;
        }
    }
    Ok(state)
}
