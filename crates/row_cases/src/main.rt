// Rows, settings lines and rows of the record, handed to their readers and writer by themselves. For each case: its name, and
// what is answered. What standard output does not take is let go: who compares the lines misses them.
#![tactic(auto)]

mod readers;
mod record;

use readers::{row, settings_line};

// After the rows 4, 999,998, 999,999 and the largest number that a caller can name.
fn later_rows(rt: HostRuntime) {
    row(rt, "row 5 after row 4", b"5,77,1,20001,9999999,1\r\n", 4);
    row(rt, "the last row", b"999999,0,0,0,0,0\r\n", 999998);
    row(rt, "no row follows it", b"1000000,0,0,0,0,0\r\n", 999999);
    row(rt, "nor this", b"999999,0,0,0,0,0\r\n", 999999);
    row(
        rt,
        "the largest last number",
        b"0,0,0,0,0,0\r\n",
        4294967295,
    );
}

fn first_rows(rt: HostRuntime) {
    row(rt, "a first row", b"1,0,0,0,0,0\r\n", 0);
    row(rt, "a wrong number", b"2,0,0,0,0,0\r\n", 0);
    row(rt, "a wrong block field", b"1,0,0,0,0,2\r\n", 0);
    row(rt, "bytes after CR LF", b"1,0,0,0,0,0\r\n1", 0);
    row(
        rt,
        "two rows in one slice",
        b"1,0,0,0,0,0\r\n2,0,0,0,0,0\r\n",
        0,
    );
    row(rt, "no bytes", b"", 0);
}

// A fault of each kind, and two at one place.
fn misshapen_rows(rt: HostRuntime) {
    row(rt, "no digit before CR", b"1,0,\r\n", 0);
    row(rt, "a digit too many", b"1,0,12345678,x,0,0\r\n", 0);
    row(rt, "a letter", b"1,0,0,0x0,0,0\r\n", 0);
    row(rt, "a CR in the third field", b"1,0,0\r0,0,0,0\r\n", 0);
    row(rt, "a comma after the last field", b"1,0,0,0,0,0,0\r\n", 0);
    row(rt, "LF alone", b"1,0,0,0,0,0\n", 0);
    row(rt, "CR alone", b"1,0,0,0,0,0\r", 0);
    row(rt, "two CR", b"1,0,0,0,0,0\r\r\n", 0);
}

fn settings_lines(rt: HostRuntime) {
    settings_line(
        rt,
        "the largest settings",
        b"12,3000,1500,60000,60000,60000,1\r\n",
    );
    settings_line(rt, "the smallest settings", b"0,10,5,40,40,60,0\r\n");
    settings_line(
        rt,
        "a settings line and a row",
        b"1,200,100,100,40,60,0\r\n1,0,0,0,0,0\r\n",
    );
    settings_line(rt, "all settings out of range", b"13,0,0,0,0,0,2\r\n");
    settings_line(rt, "no bytes", b"");
}

fn main(rt: HostRuntime) {
    later_rows(rt);
    first_rows(rt);
    misshapen_rows(rt);
    settings_lines(rt);
    record::cases(rt);
}
