// Why something was refused: the number, the place in the line where it has one, and the words.
ghost use Rattle.std.specs.Prelude.{◌≡◌};

use crate::words::{hint_of, meaning, part};
use program::say_text;
use rows::{Place, Refusal};
use std::fmt;
use std::fmt::{Display, Formatter};

// How a line ends that begins with what was refused.
#[derive(Clone, Copy)]
struct Reason(Refusal);

impl Display for Reason {
    fn fmt<W: fmt::Write>(&self, f: &mut Formatter<W>) -> fmt::Result {
        let Refusal {
            number,
            place,
            hint,
        } = self.0;
        write!(f, ": refused {number}: ")?;
        if let Some(Place { offset, field }) = place {
            write!(f, "byte {offset}, field {field}: ")?;
        }
        match part(number) {
            Some(part) => write!(f, "{part} is missing, malformed or not one that we take")?,
            None => write!(f, "{}", meaning(number))?,
        }
        match hint {
            Some(hint) => write!(f, "{}", hint_of(hint)),
            None => Ok(()),
        }
    }
}

// Ends a line that begins with what was refused. Answers the refusal's number, which is all that a contract can say of it.
pub fn say_reason(rt: HostRuntime, refusal: Refusal) -> u32
    ensures { result ≡ refusal.number }
{
    say_text(rt, format_args!("{}\n", Reason(refusal)));
    refusal.number
}
