// What the program is asked for: its one argument.
use program::{argument, argument_count, number_argument};

// No option of a row: none of it would read as nothing asked for.
#[derive(Clone, Copy)]
pub(crate) enum Asked {
    All,
    Row(u32),
}

// As `has_option` of replay: two lines, shorter than a shared call with its contract.
fn is_all(rt: HostRuntime) -> bool {
    let mut word = [0u8; 5];
    argument(rt, 1, &mut word).is_some() && word == *b"--all"
}

// None where there is no argument, more than one, or one that is no row number. A row's number has six digits at most.
pub(crate) fn read_argument(rt: HostRuntime) -> Option<Asked> {
    if argument_count(rt) != 2 {
        return None;
    }
    if is_all(rt) {
        return Some(Asked::All);
    }
    match number_argument(rt, 1, &mut [0u8; 6])? {
        0 => None,
        row => Some(Asked::Row(row as u32)),
    }
}
