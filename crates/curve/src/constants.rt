// The constants of the eleven curves.
ghost use Rattle.std.specs.Prelude.{cond, ◌≡◌, ◌≤◌, Some, None};
ghost use Rattle.checks.specs.Range.{in_range};
ghost use Rattle.curve.specs.Constants.{constants_of};

// The power a: 0.02, which is a fiftieth, 1 or 2.
#[derive(Clone, Copy)]
pub enum Power {
    Fiftieth,
    First,
    Second,
}

// k and kr are in units of 0.0001 s, c in microseconds.
#[derive(Clone, Copy)]
pub struct Constants {
    pub k: u64,
    pub c: u64,
    pub a: Power,
    pub kr: Option<u64>,
}

// An IEC curve has no c, which is 0 in its row and adds nothing, and no reset rule.
#[tactic(auto, unfolding(crate::specs::Constants::constants_of))]
fn iec(operation: u32) -> Constants
    requires { (2 ≤ operation) × (operation ≤ 5) }
    ensures { result ≡ constants_of operation }
{
    let (k, a) = match operation {
        2 => (1400, Power::Fiftieth), // Inv
        3 => (135000, Power::First), // VeryInv
        4 => (800000, Power::Second), // ExtInv
        _ => (1200000, Power::First), // LongInv
    };
    Constants {
        k,
        c: 0,
        a,
        kr: None,
    }
}

#[tactic(auto, unfolding(crate::specs::Constants::constants_of))]
fn ansi(operation: u32) -> Constants
    requires { (6 ≤ operation) × (operation ≤ 12) }
    ensures { result ≡ constants_of operation }
{
    let (k, c, a, kr) = match operation {
        6 => (86, 18500, Power::Fiftieth, 4600), // Inv
        7 => (515, 114000, Power::Fiftieth, 48500), // ModInv
        8 => (196100, 491000, Power::Second, 216000), // VeryInv
        9 => (282000, 121700, Power::Second, 291000), // ExtInv
        10 => (860, 185000, Power::Fiftieth, 46000), // LongInv
        11 => (285500, 712000, Power::Second, 134600), // LongVeryInv
        _ => (640700, 250000, Power::Second, 300000), // LongExtInv
    };
    Constants {
        k,
        c,
        a,
        kr: Some(kr),
    }
}

// The row of an operation, whose number picks formula and reset rule, by the ranges that document 01 names. It stays a number: the
// settings and the public calls that docs/SHEET.md names have it.
pub(crate) fn constants_of(operation: u32) -> Option<Constants>
    ensures { result ≡ cond (in_range 2 12 operation) (Some (constants_of operation)) None }
{
    match operation {
        0 => None, // Off
        1 => None, // Definite
        2..=5 => Some(iec(operation)),
        6..=12 => Some(ansi(operation)),
        _ => None,
    }
}
