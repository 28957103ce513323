// X(m), the number behind the 0.02 power.
ghost use Rattle.std.specs.Prelude.{cond, ◌≡◌};
ghost use Rattle.checks.specs.Range.{in_range};
ghost use Rattle.powers.specs.Power.{X};

use crate::power_table::x_in_table;

// X(m) for a ratio m from 101 to 2000; 0 at any other. Both names stay: docs/SHEET.md names `x_of` and `x_in_table`.
pub fn x_of(ratio: u32) -> u64
    ensures { result ≡ cond (in_range 101 2000 ratio) (X ratio) 0 }
{
    x_in_table(ratio)
}
