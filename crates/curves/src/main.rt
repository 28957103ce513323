// The program `curves OPERATION FIRST LAST`: for each ratio from the first to the last that has one, a line `ratio,microseconds` on
// standard output: the reset time below 100, the operate time above, both at multiplier 1.
#![tactic(auto)]

mod asked;

use asked::{Asked, read_arguments};
use program::{say, was_taken};
use std::io::Write;

// None where the curve has no time at the ratio.
fn time_at(operation: u32, ratio: u32) -> Option<u64> {
    let time = if ratio < 100 {
        curve::reset_time(operation, ratio)
    } else {
        curve::operate_time(operation, ratio)
    };
    (time != 0).then_some(time)
}

fn print_times(rt: HostRuntime, asked: Asked) {
    for ratio in asked.first..=asked.last {
        if let Some(time) = time_at(asked.operation, ratio)
            && !was_taken(rt, write!(rt.stdout(), "{ratio},{time}\n"))
        {
            return;
        }
    }
}

fn main(rt: HostRuntime) {
    match read_arguments(rt) {
        Some(asked) => print_times(rt, asked),
        None => {
            say(
                rt,
                b"failed: curves takes an operation, 2 to 12, and two ratios in hundredths, 0 to 2000\n",
            );
        }
    }
}
