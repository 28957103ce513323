// The settings from their numbers.
ghost use Rattle.std.specs.Prelude.{◌≡◌};
ghost use Rattle.phase.specs.Settings.{settings_of};

use phase::Settings;

pub(crate) fn settings_of(
    operation: u32,
    start_current: u32,
    time_multiplier: u32,
    minimum_delay: u32,
    definite_delay: u32,
    reset_time: u32,
    start_only: u32,
) -> Settings
    ensures { result ≡ settings_of operation start_current time_multiplier minimum_delay
        definite_delay reset_time start_only }
{
    Settings {
        operation,
        start_current,
        time_multiplier,
        minimum_delay,
        definite_delay,
        reset_time,
        start_only,
    }
}
