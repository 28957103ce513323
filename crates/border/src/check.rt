// The settings check.
ghost use Rattle.std.specs.Prelude.{◌≡◌};
ghost use Rattle.phase.specs.declared.settings.Settings.{Settings};
ghost use Rattle.phase.specs.Settings.{settings_of, settings_refusal};

use crate::settings::settings_of;

// 0, or the number of the first setting that is outside its range: C takes and is answered plain numbers.
#[unsafe(no_mangle)]
pub extern "C" fn oc_check_settings(
    operation: u32,
    start_current: u32,
    time_multiplier: u32,
    minimum_delay: u32,
    definite_delay: u32,
    reset_time: u32,
    start_only: u32,
) -> u32
    ensures { let settings : Settings = settings_of operation start_current time_multiplier minimum_delay
        definite_delay reset_time start_only in
        result ≡ settings_refusal settings }
{
    let settings = settings_of(
        operation,
        start_current,
        time_multiplier,
        minimum_delay,
        definite_delay,
        reset_time,
        start_only,
    );
    settings.check()
}
