// What a timer keeps from tick to tick, and its limits.
ghost use Rattle.std.specs.Prelude.{◌≡◌};
ghost use Rattle.timer.specs.State.{fresh_timer};

// Only Hold changes the previous input, only the flip-flop the latch.
#[derive(Clone, Copy)]
pub struct TimerState {
    pub count: u32,
    pub previous: bool,
    pub latch: bool,
}

impl TimerState {
    // One more than the longest delay, so that a count that has stopped is over every delay.
    pub const COUNT_LIMIT: u32 = 60001;

    pub const DELAY_LIMIT: u32 = 60000;

    pub fn fresh() -> Self
        ensures { result ≡ fresh_timer }
    {
        Self {
            count: 0,
            previous: false,
            latch: false,
        }
    }
}
