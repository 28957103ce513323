// The operate and the reset time in microseconds.
ghost use Rattle.std.specs.Prelude.{◌≡◌, ◌≤◌, ◌^◌};
ghost use Rattle.curve.specs.Time.{inverse_part, operate_time, reset_part, reset_time};

use crate::constants::{Power, constants_of};
use crate::rounding::round_up;
use powers::x_of;

// What a curve with the power a and the constant k adds to c at a ratio m.
#[tactic(auto, using(crate::proofs::TimeLaws::inverse_laws))]
fn inverse_part(a: Power, k: u64, m: u32) -> u64
    requires moderate { k ≤ 10 ^ 7 }
    requires above { 101 ≤ m }
    requires within { m ≤ 2000 }
    ensures { result ≡ inverse_part a k m }
{
    let ratio = m as u64;
    match a {
        Power::Fiftieth => round_up(k * x_of(m), 10000),
        Power::First => round_up(k * 10000, ratio - 100),
        Power::Second => round_up(k * 1000000, ratio * ratio - 10000),
    }
}

// The operate time T at multiplier 1; 0 where there is none (docs/SHEET.md has it as a number, and a quotient by 0 is 0). The arms are
// the ranges of the ratio that document 01 names.
#[tactic(auto, using(crate::proofs::TimeLaws::operate_laws))]
pub fn operate_time(operation: u32, ratio: u32) -> u64
    ensures { result ≡ operate_time operation ratio }
{
    match ratio {
        0..=99 => 0,
        100 => 0,
        101..=2000 => match constants_of(operation) {
            Some(row) => row.c + inverse_part(row.a, row.k, ratio),
            None => 0,
        },
        _ => 0,
    }
}

// What an ANSI curve with the constant kr takes to reset at a ratio m.
#[tactic(auto, using(crate::proofs::TimeLaws::square_below))]
fn reset_part(kr: u64, m: u32) -> u64
    requires moderate { kr ≤ 10 ^ 7 }
    requires below { m ≤ 99 }
    ensures { result ≡ reset_part kr m }
{
    let ratio = m as u64;
    round_up(kr * 1000000, 10000 - ratio * ratio)
}

// The reset time of an ANSI curve; 0 where there is none, as above.
#[tactic(auto, using(crate::proofs::TimeLaws::reset_laws))]
pub fn reset_time(operation: u32, ratio: u32) -> u64
    ensures { result ≡ reset_time operation ratio }
{
    match ratio {
        0..=99 => match constants_of(operation).and_then(|row| row.kr) {
            Some(kr) => reset_part(kr, ratio),
            None => 0, // no curve, or one of the IEC
        },
        100 => 0,
        101..=2000 => 0,
        _ => 0,
    }
}
