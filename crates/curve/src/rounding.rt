// Quotients of 64-bit numbers, rounded down and rounded up.
ghost use Rattle.std.specs.Prelude.{◌≡◌, ◌/◌, ◌^◌, ◌≤◌, ◌<◌};
ghost use Rattle.curve.specs.Rounding.{rounded_up};

// n divided by d, rounded down, by shift and subtract: for a processor that has no 64-bit divider. The divisor is lined up with the
// number, so that a round is a bit of the quotient, from the highest down; there are 64 at most.
#[tactic(auto, using(crate::proofs::LongDivision::division_laws))]
fn shift_and_subtract(n: u64, d: u64) -> u64
    requires { 0 < d }
    ensures { result ≡ n / d }
{
    if n < d {
        return 0;
    }
    let places = d.leading_zeros() - n.leading_zeros();
    let mut part = d << places;
    let mut bit = 1u64 << places;
    let mut rest = n;
    let mut q = 0;
    // No index: `bit` is the bit of the quotient that is due, and halves to nothing.
    while 0 < bit {
        // Each way shifts for itself: joined, they are a quarter slower.
        if rest < part {
            part /= 2;
            bit /= 2;
            continue;
        }
        rest -= part;
        q += bit;
        part /= 2;
        bit /= 2;
    }
    q
}

// n divided by d, rounded down; by 0 it is 0. Nothing of this crate divides a 64-bit number otherwise.
#[tactic(auto, using(crate::proofs::RoundingLaws::by_zero))]
pub(crate) fn quotient(n: u64, d: u64) -> u64
    ensures { result ≡ n / d }
{
    if d == 0 { 0 } else { shift_and_subtract(n, d) }
}

// n divided by d, rounded up.
#[tactic(auto, using(crate::proofs::RoundingLaws::rounded_up_by_one_division))]
pub(crate) fn round_up(n: u64, d: u64) -> u64
    requires { (n ≤ 10 ^ 17) × (0 < d) × (d ≤ 10 ^ 14) }
    ensures { result ≡ rounded_up n d }
{
    quotient(n + (d - 1), d)
}
