// A file that an argument names.
ghost use Rattle.std.specs.Prelude.{◌≤ℤ◌, IfOk, pos};
ghost use Rattle.std.specs.Fd.{file_raw_fd};
ghost use Rattle.program.specs.File.{Descriptor, number_of};

use crate::failure::{EBADF, EILSEQ, ENAMETOOLONG, say_failure};
use std::fs::File;
use std::io;
use std::os::fd::AsRawFd;

// No path of the system has as many bytes.
pub const PATH_ROOM: usize = 4096;

// Only a name that is UTF-8 can be opened. One that is too long may be cut inside a character.
fn open(rt: HostRuntime, path: &[u8]) -> io::Result<File>
    ensures { IfOk result (λ file. pos 0 ≤ℤ file_raw_fd file) }
{
    if PATH_ROOM <= path.len() {
        return Err(io::Error::from_raw_os_error(ENAMETOOLONG));
    }
    let Ok(path) = std::str::from_utf8(path) else {
        return Err(io::Error::from_raw_os_error(EILSEQ));
    };
    let file = File::open(&rt, path)?;
    // No open file's number is negative, but the library doesn't say so.
    if file.as_raw_fd() < 0 {
        return Err(io::Error::from_raw_os_error(EBADF));
    }
    Ok(file)
}

// Opens a file for reading; it is closed where it is let go. A file that can't be opened is told on standard error.
pub fn open_file(rt: HostRuntime, path: &[u8]) -> Option<File>
    ensures { Descriptor (number_of result) }
{
    match open(rt, path) {
        Ok(file) => Some(file),
        Err(error) => {
            say_failure(rt, "opening ", path, error);
            None
        }
    }
}
