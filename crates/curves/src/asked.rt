// The curve and the ratios that the program is asked for: its three arguments.
use program::{argument_count, number_argument};

#[derive(Clone, Copy)]
pub(crate) struct Asked {
    pub(crate) operation: u32,
    pub(crate) first: u32,
    pub(crate) last: u32,
}

// The number that an argument is: of four digits at most.
fn number_at(rt: HostRuntime, place: usize) -> Option<u32> {
    let number = number_argument(rt, place, &mut [0u8; 4])?;
    Some(number as u32)
}

// None where they are not three: a curve, and ratios to 20 times the setting.
pub(crate) fn read_arguments(rt: HostRuntime) -> Option<Asked> {
    let asked = Asked {
        operation: number_at(rt, 1)?,
        first: number_at(rt, 2)?,
        last: number_at(rt, 3)?,
    };
    let is_right = (argument_count(rt) == 4)
        & (2..=12).contains(&asked.operation)
        & (asked.first <= 2000)
        & (asked.last <= 2000);
    is_right.then_some(asked)
}
