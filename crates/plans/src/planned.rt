// A plan beside the settings that it is of.
ghost use Rattle.std.specs.Prelude.{◌≡◌};
ghost use Rattle.plans.specs.device.Plan.{plan_of};

use crate::plan::Plan;
use phase::CheckedSettings;

#[derive(Clone, Copy)]
pub struct Planned {
    pub checked: CheckedSettings,
    pub plan: Plan,
    pub ghost is_theirs: { plan ≡ plan_of checked.settings },
}
