// The output byte of a tick.
ghost use Rattle.std.specs.Prelude.{false, ◌≡◌, ◌*◌, ◌≤◌, get_or};
ghost use Rattle.relay.specs.Outputs.{bit, general, output_byte, phase_bits};

// No `From`: that it is at most the value is its promise too.
pub fn bit(on: bool, value: u8) -> u8
    ensures { (result ≡ bit on value) × (result ≤ value) }
{
    if on { value } else { 0 }
}

// The bits of L1, L2 and L3, of which L1 has the first.
fn phase_bits(on: [bool; 3], first: u8) -> u8
    requires { first ≤ 8 }
    ensures { (result ≡ phase_bits first (get_or on 0 false) (get_or on 1 false) (get_or on 2 false))
        × (result ≤ 7 * first) }
{
    bit(on[0], first) + bit(on[1], 2 * first) + bit(on[2], 4 * first)
}

fn general(on: [bool; 3], block: u8) -> bool
    ensures { result ≡ general (get_or on 0 false) (get_or on 1 false) (get_or on 2 false) block }
{
    (on[0] | on[1] | on[2]) & (block == 0)
}

// The starts and trips of L1, L2 and L3, and the general ones, which a block turns off.
pub(crate) fn output_byte(starts: [bool; 3], trips: [bool; 3], block: u8) -> u8
    ensures { result ≡ output_byte (get_or starts 0 false) (get_or starts 1 false) (get_or starts 2 false)
        (get_or trips 0 false) (get_or trips 1 false) (get_or trips 2 false) block }
{
    let start = general(starts, block);
    let trip = general(trips, block);
    phase_bits(starts, 1) + phase_bits(trips, 8) + bit(start, 64) + bit(trip, 128)
}
