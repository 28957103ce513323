// The readers of a row and of the settings line, called by themselves.
use rows::{Refusal, Row};

fn say_row(rt: HostRuntime, row: Row) {
    let x = row.sample;
    let _ = println!(rt;
        ": row {}, currents {} {} {}, block {}",
        row.number, x.l1, x.l2, x.l3, x.block
    );
}

// The number, and of a wrong shape its place.
pub(crate) fn say_refused(rt: HostRuntime, refusal: Refusal) {
    let _ = print!(rt; ": refused, {}", refusal.number);
    if let Some(place) = refusal.place {
        let _ = print!(rt; ", byte {}, field {}", place.offset, place.field);
    }
    let _ = println!(rt);
}

// Reads a row after a row of number `last`.
pub(crate) fn row(rt: HostRuntime, name: &str, bytes: &[u8], last: u32) {
    let _ = print!(rt; "{name}");
    match rows::read_row(bytes, last) {
        Ok(x) => say_row(rt, x),
        Err(refusal) => say_refused(rt, refusal),
    }
}

pub(crate) fn settings_line(rt: HostRuntime, name: &str, bytes: &[u8]) {
    let _ = print!(rt; "{name}");
    match rows::read_settings_line(bytes) {
        Ok(_) => {
            let _ = println!(rt; ": accepted");
        }
        Err(refusal) => say_refused(rt, refusal),
    }
}
