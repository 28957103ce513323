// The status fields: the bits of the output byte, by value 1, 2, 4 .. 128.
ghost use Rattle.std.specs.Prelude.{◌≡◌, ◌≤◌, length};
ghost use Rattle.records.specs.device.StatusRead.{status_answer};

// The byte whose bits they are, where each field is 0 or 1: the highest first.
pub(crate) fn read_status(fields: &[u64]) -> Option<u8>
    requires { length fields.now ≤ 8 }
    ensures { result ≡ status_answer fields.now }
{
    let mut byte = 0u8;
    for bit in fields.iter().rev() {
        if 1 < *bit {
            return None;
        }
        byte = 2 * byte + *bit as u8;
    }
    Some(byte)
}
