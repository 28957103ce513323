// Inputs of the replay, run in memory through the library: those of standard input, and some of its own. For each case: its
// name, its length, and what its replay writes; and whether that differs where the input is cut in two at any place, or fed
// byte by byte.
#![tactic(auto)]

mod line;
mod list;
mod made_up;
mod room;
mod run;

use list::each;

// As bytes of the code the cases would make its check longer.
fn read_cases(rt: HostRuntime) {
    let mut cases = [0u8; 8192];
    if let Some(n) = program::read_portion(rt, &mut cases) {
        each(rt, &cases[..n]);
    }
}

fn main(rt: HostRuntime) {
    read_cases(rt);
    room::feeds(rt);
    room::record_feeds(rt);
    room::ends(rt);
    made_up::row_without_settings(rt);
}
