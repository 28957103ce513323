// The settings and their check.
ghost use Rattle.std.specs.Prelude.{◌≡◌};
ghost use Rattle.checks.specs.Checks.{first_failed};
ghost use Rattle.phase.specs.Settings.{settings_checks, settings_refusal, trip_level};

use checks::{first_failed, in_range};

// In the order of the document's table. Plain numbers, also where they say a kind or yes and no: C gives them, and the check refuses
// those that are out of range.
#[derive(Clone, Copy)]
pub struct Settings {
    pub operation: u32,
    pub start_current: u32,
    pub time_multiplier: u32,
    pub minimum_delay: u32,
    pub definite_delay: u32,
    pub reset_time: u32,
    pub start_only: u32,
}

impl Settings {
    // 0, or the number of the first setting that is outside its range: C is answered so.
    #[tactic(auto, unfolding(crate::specs::Settings::settings_refusal))]
    pub fn check(self) -> u32
        ensures { result ≡ settings_refusal self }
    {
        settings_first_failed(self, 0)
    }
}

// The sum at which a curve trips.
pub fn trip_level(settings: Settings) -> u64
    ensures { result ≡ trip_level settings }
{
    settings.time_multiplier as u64 * 1000000000
}

// The number of the first setting that is outside its range, else `rest`.
pub fn settings_first_failed(settings: Settings, rest: u32) -> u32
    ensures { result ≡ first_failed (settings_checks settings) rest }
{
    let from7 = first_failed(in_range(0, 1, settings.start_only), 7, rest);
    let from6 = first_failed(in_range(60, 60000, settings.reset_time), 6, from7);
    let from5 = first_failed(in_range(40, 60000, settings.definite_delay), 5, from6);
    let from4 = first_failed(in_range(40, 60000, settings.minimum_delay), 4, from5);
    let from3 = first_failed(in_range(5, 1500, settings.time_multiplier), 3, from4);
    let from2 = first_failed(in_range(10, 3000, settings.start_current), 2, from3);
    first_failed(in_range(0, 12, settings.operation), 1, from2)
}
