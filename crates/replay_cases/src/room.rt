// The library's calls with just enough room for what they may write, and with too little.
use files::{LONGEST_LINE, Replay};
use steps::{END_ROOM, Form};

// Feeds five bytes to a state that holds `held` bytes.
fn feed(rt: HostRuntime, name: &str, form: Form, held: usize, out: &mut [u8]) {
    let mut state = Replay::fresh(form, None);
    state.cutter.count = held;
    let fed = files::feed(state, b"1,200", out);
    let taken = if fed.taken { "taken" } else { "not taken" };
    let _ = print!(rt; "{name}: {taken}\n");
}

fn end(rt: HostRuntime, name: &str, out: &mut [u8]) {
    let written = files::finish(Replay::fresh(Form::Changes, None), out);
    let _ = print!(rt; "{name}: {written} bytes written\n");
}

pub(crate) fn feeds(rt: HostRuntime) {
    let mut five = [7u8; 5];
    let mut four = [7u8; 4];
    let mut large = [7u8; 100];
    feed(
        rt,
        "a portion of 5 bytes, room for 5",
        Form::Changes,
        0,
        &mut five,
    );
    feed(
        rt,
        "a portion of 5 bytes, room for 4",
        Form::Changes,
        0,
        &mut four,
    );
    feed(
        rt,
        "a state that holds 46 bytes",
        Form::Changes,
        LONGEST_LINE + 1,
        &mut large,
    );
}

// The record needs five times as much.
pub(crate) fn record_feeds(rt: HostRuntime) {
    let mut enough = [7u8; 25];
    let mut short = [7u8; 24];
    feed(
        rt,
        "for the record, room for 25",
        Form::Record,
        0,
        &mut enough,
    );
    feed(
        rt,
        "for the record, room for 24",
        Form::Record,
        0,
        &mut short,
    );
}

pub(crate) fn ends(rt: HostRuntime) {
    let mut short = [7u8; END_ROOM - 1];
    let mut enough = [7u8; END_ROOM];
    end(rt, "an end line with room for 25", &mut short);
    end(rt, "an end line with room for 26", &mut enough);
}
