// A state that no replay reaches: rows are due, and no settings were accepted.
use crate::line::say;
use files::Replay;
use steps::{END_ROOM, Form, Progress, Stage};

fn without_settings() -> Replay {
    let fresh = Replay::fresh(Form::Changes, None);
    let progress = Progress {
        stage: Stage::Running,
        ..fresh.progress
    };
    Replay { progress, ..fresh }
}

// The row's tick is refused, by the first setting out of range: the row is not done, and the replay stops.
pub(crate) fn row_without_settings(rt: HostRuntime) {
    say(rt, b"a row without accepted settings: ");
    let mut out = [0u8; 100];
    let fed = files::feed(without_settings(), b"1,0,20001,0,0,0\r\n", &mut out);
    let mut end = [0u8; END_ROOM];
    let n = files::finish(fed.state, &mut end);
    say(rt, &end[..n]);
}
