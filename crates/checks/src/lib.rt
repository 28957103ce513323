// Checks of a call's arguments, and the refusal number that they give: a library beneath the layers.
#![tactic(auto)]

ghost use Rattle.std.specs.Prelude.{◌≡◌, [], ◌∷◌};
ghost use Rattle.checks.specs.Checks.{check, first_failed};
ghost use Rattle.checks.specs.Range.{in_range};

// Whether a number is in a range, both ends included. (docs/SHEET.md names the call.)
pub fn in_range(low: u32, high: u32, n: u32) -> bool
    ensures { result ≡ in_range low high n }
{
    (low..=high).contains(&n)
}

// `rest` where the check is passed, else the check's number. Of several checks the last is asked first, and its answer is the
// rest of the one before. No error type: the document and the answers for C number refusals, 0 for none.
pub fn first_failed(passes: bool, number: u32, rest: u32) -> u32
    ensures { result ≡ first_failed (check passes number ∷ []) rest }
{
    if passes { rest } else { number }
}
