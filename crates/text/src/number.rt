// Numbers in text: reading 1 to 10 digits, and writing a decimal.
ghost use Rattle.std.specs.Prelude.{◌≡◌, ◌+◌, ◌≤◌, length};
ghost use Rattle.text.specs.Number.{digit_limit, decimal};
ghost use Rattle.text.specs.device.Calls.{DigitsFound, Wrote};

// So many digits, and their number.
#[derive(Clone, Copy)]
pub struct Digits {
    pub count: usize,
    pub value: u64,
}

// The digits that stand at a place, at most `width` of them: how many there are, and their number.
pub fn read_digits(s: &[u8], at: usize, width: usize) -> Digits
    requires { (at ≤ length s.now) × (width ≤ digit_limit) }
    ensures { DigitsFound s.now at width result }
{
    let part = &s[at..at + width.min(s.len() - at)];
    let mut value = 0;
    for (count, b) in part.iter().enumerate() {
        if !b.is_ascii_digit() {
            return Digits { count, value };
        }
        value = value * 10 + u64::from(b - b'0');
    }
    Digits {
        count: part.len(),
        value,
    }
}

// How many digits a decimal has.
pub fn decimal_length(v: u32) -> usize
    ensures { result ≡ length (decimal v) }
{
    v.max(1).ilog10() as usize + 1
}

// Writes a decimal at a place, and answers the place after it. (By hand: into a lent slice, with no heap.)
pub fn put_decimal(out: &mut [u8], at: usize, v: u64) -> usize
    requires { at + length (decimal v) ≤ length out.old }
    ensures { Wrote out.old out.new at result (decimal v) }
{
    if v < 10 {
        out[at] = b'0' + v as u8;
        at + 1
    } else {
        let p = put_decimal(out, at, v / 10);
        out[p] = b'0' + (v % 10) as u8;
        p + 1
    }
}
