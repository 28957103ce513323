// The first trip of a relay at a ratio of its setting, without walking the ticks.
ghost use Rattle.std.specs.Prelude.{◌≡◌, ◌≤◌};
ghost use Rattle.grading.specs.FirstTrip.{first_trip_at};
ghost use Rattle.grading.specs.Margin.{lowest_ratio, highest_ratio};

use crate::tripping::Tripping;
use phase::settings::trip_level;

// From clear, with an unchanged sample: the larger of the minimum delay and the level divided by the gain, rounded up. From 101 on
// there is always a gain to divide by.
pub(crate) fn first_trip(relay: Tripping, ratio: u32) -> u64
    requires { (lowest_ratio ≤ ratio) × (ratio ≤ highest_ratio) }
    ensures { result ≡ first_trip_at relay.settings ratio }
{
    let settings = relay.settings;
    let gain = curve::gain_of(settings.operation, ratio);
    let turns = trip_level(settings).div_ceil(gain);
    let least = settings.minimum_delay as u64;
    least.max(turns)
}
