// The program `explain ROW`: a recording on standard input, and for each phase a line on standard output that tells why it did
// or did not trip in that row; `explain --all` tells it of every row done. Where the recording was refused or has no such row, or a
// call of the system failed, one line on standard error.
#![tactic(auto)]

mod asked;

ghost use Rattle.std.specs.Prelude.{◌≤◌};
ghost use Rattle.files.specs.Replay.{longest_line, portion_room};

use asked::{Asked, read_argument};
use files::{LONGEST_LINE, Replay};
use program::{say, say_text};
use steps::{EXPLAIN_SPREAD, Form};

// The room is counted as if every row wrote an explanation, so a portion is smaller than in the other programs.
const SMALL_PORTION: usize = 4096;

const ROOM: usize = EXPLAIN_SPREAD * (LONGEST_LINE + SMALL_PORTION);

// A portion fits its room in the form; the numbers are those of the two constants.
fn run(rt: HostRuntime, form: Form) -> Result<Replay, Replay>
    requires { portion_room form longest_line 4096 ≤ 190486 }
{
    let mut portion = [0u8; SMALL_PORTION];
    let mut out = [0u8; ROOM];
    runs::run(rt, form, None, &mut portion, &mut out)
}

fn explain_all(rt: HostRuntime) {
    if let Ok(state) = run(rt, Form::ExplainAll) {
        runs::tell(rt, state);
    }
}

fn explain(rt: HostRuntime, row: u32) {
    let Ok(state) = run(rt, Form::Explain(row)) else {
        return;
    };
    if !files::has_answered(state) && runs::tell(rt, state) == 0 {
        let done = state.progress.done;
        say_text(
            rt,
            format_args!("the recording has no row {row}; rows done: {done}\n"),
        );
    }
}

fn main(rt: HostRuntime) {
    match read_argument(rt) {
        Some(Asked::All) => explain_all(rt),
        Some(Asked::Row(row)) => explain(rt, row),
        None => {
            say(
                rt,
                b"failed: explain takes one row number, 1 to 999999, or --all\n",
            );
        }
    }
}
