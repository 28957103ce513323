// The writer and the reader of the record's rows, called by themselves.
use crate::readers::say_refused;
use records::RecordRow;

fn row(number: u32, l3: u32, outputs: u8) -> RecordRow {
    RecordRow {
        number,
        l1: 0,
        l2: 20001,
        l3,
        outputs,
    }
}

// The number and the place that the writer answers, and the buffer afterwards.
fn write(rt: HostRuntime, name: &str, out: &mut [u8], at: usize, x: RecordRow) {
    let w = records::write_row(out, at, x);
    let _ = print!(rt; "{name}: {}, next place {}: ", w.refusal, w.place);
    let _ = rt.write_all(out);
    let _ = println!(rt);
}

// A row of 40 bytes, with room, with just enough and with a byte too little.
fn room(rt: HostRuntime) {
    let mut middle = [b'.'; 50];
    write(rt, "in the middle", &mut middle, 3, row(5, 9999999, 210));
    let mut full = [b'.'; 43];
    write(rt, "just enough room", &mut full, 3, row(5, 9999999, 210));
    let mut short = [b'.'; 42];
    write(rt, "a byte too few", &mut short, 3, row(5, 9999999, 210));
    write(rt, "past the end", &mut short, 43, row(5, 9999999, 210));
}

// Numbers are looked at before the room.
fn numbers(rt: HostRuntime) {
    let mut none = [b'.'; 2];
    write(rt, "row 0, no room", &mut none, 2, row(0, 0, 0));
    write(rt, "row 1,000,000", &mut none, 0, row(1000000, 0, 0));
    write(rt, "a current too large", &mut none, 0, row(1, 10000000, 0));
}

fn say_record(rt: HostRuntime, x: RecordRow) {
    let _ = println!(rt;
        ": row {}, currents {} {} {}, outputs {}",
        x.number, x.l1, x.l2, x.l3, x.outputs
    );
}

fn read(rt: HostRuntime, name: &str, bytes: &[u8], last: u32) {
    let _ = print!(rt; "{name}");
    match records::read_record_row(bytes, last) {
        Ok(x) => say_record(rt, x),
        Err(refusal) => say_refused(rt, refusal),
    }
}

fn rows_read(rt: HostRuntime) {
    read(
        rt,
        "read back",
        b"5,4000,0,20001,9999999,0,1,0,0,1,0,1,1\r\n",
        4,
    );
    read(
        rt,
        "59 bytes",
        b"000001,9999999999,0000000,0020001,9999999,1,1,1,1,1,1,1,1\r\n",
        0,
    );
    read(
        rt,
        "a wrong number and status",
        b"2,0,0,0,0,0,0,0,2,0,0,0,0\r\n",
        0,
    );
    read(rt, "a status field 2", b"1,0,0,0,0,0,0,0,2,0,0,0,0\r\n", 0);
    read(rt, "a data row", b"1,0,0,0,0,0\r\n", 0);
}

pub(crate) fn cases(rt: HostRuntime) {
    room(rt);
    numbers(rt);
    rows_read(rt);
}
