// The program `replay [--config FILE]`: a settings line and data rows on standard input, changes and the end line on standard
// output; why a recording was refused, on standard error.
#![tactic(auto)]

mod arguments;

use files::LONGEST_LINE;
use runs::PORTION;
use steps::{END_ROOM, Form};

// Room for the change lines of a portion, whatever the state holds.
const ROOM: usize = LONGEST_LINE + PORTION;

fn main(rt: HostRuntime) {
    if !arguments::are_right(rt) {
        program::say(
            rt,
            b"failed: replay takes no argument, or --config and a file's name\n",
        );
        return;
    }
    let mut portion = [0u8; PORTION];
    let configuration = arguments::asked_configuration(rt, &mut portion);
    let mut changes = [0u8; ROOM];
    let run = runs::run(rt, Form::Changes, configuration, &mut portion, &mut changes);
    let Ok(state) = run else {
        return;
    };
    let mut out = [0u8; END_ROOM];
    let w = files::finish(state, &mut out);
    if program::write_out(rt, &out[..w]) == w {
        runs::tell(rt, state);
    }
}
