// The ratio of a sample to the start current.
ghost use Rattle.std.specs.Prelude.{◌≡◌};
ghost use Rattle.curve.specs.Ratio.{ratio_of};

// The ratio m, in hundredths, of a sample g (in 0.01 % of rated current) to a start current s (in %); 0 where s is 0.
#[tactic(auto, unfolding(crate::specs::Ratio::ratio_of))]
pub fn ratio_of(g: u32, s: u32) -> u32
    ensures { result ≡ ratio_of g s }
{
    if s == 0 { 0 } else { (g / s).min(2000) }
}
