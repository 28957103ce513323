// The groups of operations: what a tick does goes by them.
ghost use Rattle.std.specs.Prelude.{◌≡◌};
ghost use Rattle.phase.specs.Operation.{kind_of};

// How the sum of a curve resets: an IEC curve's after the reset time, an ANSI curve's by the loss of each tick.
#[derive(Clone, Copy)]
pub enum ResetRule {
    Iec,
    Ansi,
}

#[derive(Clone, Copy)]
pub enum Timing {
    Definite,
    Curve(ResetRule),
}

// Off is an operation of the document, and not the lack of one.
#[derive(Clone, Copy)]
pub enum Kind {
    Off,
    On(Timing),
}

// Off where the document has no such operation: in one arm with Off itself, since two arms take the archive 16 bytes of stack more, and
// its header promises under 600. A function, and no `From`: docs/SHEET.md names it as a call, with its own promise.
#[tactic(auto, unfolding(crate::specs::Operation::kind_of))]
pub fn kind_of(operation: u32) -> Kind
    ensures { result ≡ kind_of operation }
{
    match operation {
        0 | 13.. => Kind::Off,
        1 => Kind::On(Timing::Definite),
        2..=5 => Kind::On(Timing::Curve(ResetRule::Iec)),
        6..=12 => Kind::On(Timing::Curve(ResetRule::Ansi)),
    }
}
