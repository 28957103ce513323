// How many digits the fields of a line may have.
pub(crate) const ROW_WIDTHS: [usize; 6] = [6, 10, 7, 7, 7, 1];

pub(crate) const SETTINGS_WIDTHS: [usize; 7] = [5; 7];
