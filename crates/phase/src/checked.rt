// Settings that passed their check.
ghost use Rattle.phase.specs.device.Ranges.{InRange};

use crate::settings::Settings;

#[derive(Clone, Copy)]
pub struct CheckedSettings {
    pub settings: Settings,
    pub ghost in_range: { InRange settings },
}
