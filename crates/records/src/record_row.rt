// A row of the record: number, timestamp, L1, L2, L3, and the eight bits of the output byte.
ghost use Rattle.std.specs.Prelude.{◌≡◌, true};
ghost use Rattle.records.specs.RecordRow.{row_fits, field_numbers};

#[derive(Clone, Copy, PartialEq, Eq)]
pub struct RecordRow {
    pub number: u32,
    pub l1: u32,
    pub l2: u32,
    pub l3: u32,
    pub outputs: u8,
}

// As many numbers as the row has fields.
pub const FIELDS: usize = 13;

pub const LAST_ROW: u32 = 999_999;

pub const LARGEST_CURRENT: u32 = 9_999_999;

// Whether the number is 1 to 999,999 and no current is over 9,999,999.
pub(crate) fn row_fits(x: RecordRow) -> bool
    ensures { result ≡ row_fits x }
{
    (1..=LAST_ROW).contains(&x.number)
        && x.l1 <= LARGEST_CURRENT
        && x.l2 <= LARGEST_CURRENT
        && x.l3 <= LARGEST_CURRENT
}

// The numbers of its fields.
pub(crate) fn field_numbers(x: RecordRow) -> [u32; FIELDS]
    requires { row_fits x ≡ true }
    ensures { result ≡ field_numbers x }
{
    let b = x.outputs as u32;
    [
        x.number,
        1000 * (x.number - 1),
        x.l1,
        x.l2,
        x.l3,
        b % 2,
        b / 2 % 2,
        b / 4 % 2,
        b / 8 % 2,
        b / 16 % 2,
        b / 32 % 2,
        b / 64 % 2,
        b / 128 % 2,
    ]
}
