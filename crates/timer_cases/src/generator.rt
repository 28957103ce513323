// Inputs by a small generator of numbers below 65,537.
use timer::{Combination, Inputs};

// The latest number: the next is drawn from it.
#[derive(Drop)]
pub struct Generator {
    pub x: u32,
}

impl Generator {
    fn next(&mut self) -> u32 {
        self.x = (self.x % 65537 * 75 + 74) % 65537;
        self.x
    }

    pub(crate) fn draw(&mut self, load: Load) -> Inputs {
        let x = self.next();
        Inputs {
            combination: load.combination,
            start: x % 16 < load.density,
            or_input: x / 16 % 16 < 4,
            and_input: x / 256 % 16 < 13,
            reset: load.resets & (x / 4096 % 16 == 7),
        }
    }
}

// How the inputs of a run are drawn and combined: the start input is on at `density` of 16 numbers, a reset comes at one of
// 16 or never.
#[derive(Clone, Copy)]
pub struct Load {
    pub combination: Combination,
    pub density: u32,
    pub resets: bool,
}
