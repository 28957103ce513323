// What is wrong with the shape of a line, and where.
ghost use Rattle.std.specs.Prelude.{◌≡◌};
ghost use Rattle.faults.specs.device.Closing.{fault_of};

// In the order in which they are told at one place.
#[derive(Clone, Copy, PartialEq, Eq)]
pub enum Flaw {
    NoDigit,
    DigitTooMany,
    StrayByte,
    FieldCount,
    LineEnd,
}

// A flaw, its byte offset in the line, and its field, counted from 1.
#[derive(Clone, Copy, PartialEq, Eq)]
pub struct Fault {
    pub flaw: Flaw,
    pub offset: usize,
    pub field: usize,
}

impl Fault {
    pub(crate) fn new(flaw: Flaw, offset: usize, field: usize) -> Fault
        ensures { result ≡ fault_of flaw offset field }
    {
        Fault {
            flaw,
            offset,
            field,
        }
    }
}
