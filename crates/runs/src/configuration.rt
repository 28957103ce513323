// The configuration that a file holds, read by portions.
ghost use Rattle.std.specs.Prelude.{IfSome};
ghost use Rattle.runs.specs.Configuration.{ReaderReached, ConfigReached};

use config::{Fault, Reader};
use program::{open_file, read_portion_of};

// To the end of the file, or to a refusal, after which nothing changes the answer. None where it can't be opened or read, which is
// told on standard error.
fn read_file(rt: HostRuntime, path: &[u8], portion: &mut [u8]) -> Option<Reader>
    ensures { IfSome result (λ reader. ReaderReached reader) }
{
    let mut file = open_file(rt, path)?;
    let mut reader = Reader::fresh();
    // A function must be seen to end. No file has so many portions.
    for _ in 0..u64::MAX {
        let n = read_portion_of(rt, &mut file, path, portion)?;
        if n == 0 {
            break;
        }
        reader = reader.take(&portion[..n]);
        if reader.reading.refusal.is_some() {
            break;
        }
    }
    Some(reader)
}

// A file that can't be opened or read is taken as empty. Of the file no contract can say more than that it came in some portions.
pub fn read_configuration(rt: HostRuntime, path: &[u8], portion: &mut [u8]) -> Result<u64, Fault>
    ensures { ConfigReached result }
{
    let reader = match read_file(rt, path, portion) {
        Some(reader) => reader,
        None => Reader::fresh(),
    };
    reader.finish()
}
