// A call of the system that failed, told on standard error.
use crate::output::{say, say_text};
use std::io::Error;

// A call that a signal interrupted. (These are the numbers of Linux.)
pub(crate) const EINTR: i32 = 4;

// No open file has this number.
pub(crate) const EBADF: i32 = 9;

// A name that is longer than a path may be.
pub(crate) const ENAMETOOLONG: i32 = 36;

// A name that is not UTF-8.
pub(crate) const EILSEQ: i32 = 84;

// What an open, a read or a write can fail with, by the number of Linux, in the C library's words.
fn words_of(error: i32) -> Option<&'static str> {
    let words = match error {
        1 => "Operation not permitted",
        2 => "No such file or directory",
        5 => "Input/output error",
        EBADF => "Bad file descriptor",
        11 => "Resource temporarily unavailable",
        12 => "Cannot allocate memory",
        13 => "Permission denied",
        20 => "Not a directory",
        21 => "Is a directory",
        22 => "Invalid argument",
        24 => "Too many open files",
        27 => "File too large",
        28 => "No space left on device",
        32 => "Broken pipe",
        ENAMETOOLONG => "File name too long",
        40 => "Too many levels of symbolic links",
        EILSEQ => "Invalid or incomplete multibyte or wide character",
        _ => return None,
    };
    Some(words)
}

// One line: what was tried on what, and why it failed. An error that is none of the system's is number 0.
pub(crate) fn say_failure(rt: HostRuntime, tried: &str, on: &[u8], error: Error) {
    let number = error.raw_os_error().unwrap_or(0);
    say_text(rt, format_args!("failed: {tried}"));
    say(rt, on);
    say(rt, b": ");
    match words_of(number) {
        Some(words) => say(rt, words.as_bytes()),
        None => say_text(rt, format_args!("error {number}")),
    };
    say(rt, b"\n");
}
