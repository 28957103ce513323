// The program `record`: a settings line and data rows on standard input, a row of the relay's record for each row done on
// standard output; where the input was refused or a call of the system failed, one line on standard error.
#![tactic(auto)]

use files::LONGEST_LINE;
use runs::PORTION;
use steps::{Form, RECORD_SPREAD};

// Room for the rows of a portion, whatever the state holds.
const ROOM: usize = RECORD_SPREAD * (LONGEST_LINE + PORTION);

fn main(rt: HostRuntime) {
    let mut portion = [0u8; PORTION];
    let mut rows = [0u8; ROOM];
    if let Ok(state) = runs::run(rt, Form::Record, None, &mut portion, &mut rows) {
        runs::tell(rt, state);
    }
}
