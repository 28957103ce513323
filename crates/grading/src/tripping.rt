// Settings that trip at every ratio: those of a curve, with start only off, that passed their check.
ghost use Rattle.grading.specs.device.Ready.{Trips};

use phase::Settings;

#[derive(Clone, Copy)]
pub(crate) struct Tripping {
    pub(crate) settings: Settings,
    pub ghost trips: { Trips settings },
}
