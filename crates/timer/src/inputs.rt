// The inputs of a tick, and the one that they combine to.
ghost use Rattle.std.specs.Prelude.{◌≡◌};
ghost use Rattle.timer.specs.Inputs.{input_of};

// The input is start; start OR or-input; start AND and-input; (start OR or-input) AND and-input.
#[derive(Clone, Copy)]
pub enum Combination {
    Plain,
    Or,
    And,
    OrAnd,
}

// The inputs at one tick. One that the combination does not name is not looked at.
#[derive(Clone, Copy)]
pub struct Inputs {
    pub combination: Combination,
    pub start: bool,
    pub or_input: bool,
    pub and_input: bool,
    pub reset: bool,
}

impl Inputs {
    pub(crate) fn combined(self) -> bool
        ensures { result ≡ input_of self }
    {
        match self.combination {
            Combination::Plain => self.start,
            Combination::Or => self.start || self.or_input,
            Combination::And => self.start && self.and_input,
            Combination::OrAnd => (self.start || self.or_input) && self.and_input,
        }
    }
}
