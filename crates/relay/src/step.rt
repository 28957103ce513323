// The three phases on their way from tick to tick by a plan.
ghost use Rattle.std.specs.Prelude.{◌≡◌};
ghost use Rattle.phase.specs.declared.settings.Settings.{Settings};
ghost use Rattle.relay.specs.device.Step.{StepReady, courses_from, relay_of, relay_step};

use crate::outputs::output_byte;
use crate::sample::Sample;
use crate::state::RelayState;
use plans::Planned;
use plans::course::{Course, course_from, turn};

#[derive(Clone, Copy)]
pub struct Courses {
    pub l1: Course,
    pub l2: Course,
    pub l3: Course,
}

#[derive(Clone, Copy)]
pub struct Stepped {
    pub courses: Courses,
    pub outputs: u8,
}

pub fn courses_from(planned: Planned, relay: RelayState) -> Courses
    ensures { result ≡ courses_from planned.checked.settings relay }
{
    Courses {
        l1: course_from(planned, relay.phases[0]),
        l2: course_from(planned, relay.phases[1]),
        l3: course_from(planned, relay.phases[2]),
    }
}

pub fn relay_of(courses: Courses) -> RelayState
    ensures { result ≡ relay_of courses }
{
    RelayState {
        phases: [courses.l1.state, courses.l2.state, courses.l3.state],
    }
}

pub fn step(planned: Planned, courses: Courses, sample: Sample) -> Stepped
    requires { StepReady planned.checked.settings courses }
    ensures { let settings : Settings = planned.checked.settings in
        result ≡ relay_step settings (relay_of courses) sample.l1 sample.l2 sample.l3 sample.block }
{
    let a = turn(planned, courses.l1, sample.l1);
    let b = turn(planned, courses.l2, sample.l2);
    let c = turn(planned, courses.l3, sample.l3);
    let outputs = output_byte(
        [a.start, b.start, c.start],
        [a.trip, b.trip, c.trip],
        sample.block,
    );
    Stepped {
        courses: Courses {
            l1: a.course,
            l2: b.course,
            l3: c.course,
        },
        outputs,
    }
}
