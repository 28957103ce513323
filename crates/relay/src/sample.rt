// What one tick of the relay is given.

// The currents of L1, L2 and L3, and the block byte, a number as it comes: another than 0 and 1 is refused.
#[derive(Clone, Copy)]
pub struct Sample {
    pub l1: u32,
    pub l2: u32,
    pub l3: u32,
    pub block: u8,
}
