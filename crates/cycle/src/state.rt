// The state of a netlist: a byte for each register, and behind them the number of marked registers, a u16.
ghost use Rattle.std.specs.Prelude.{◌≡◌, ◌+◌, ◌<◌, ◌≤◌, length};
ghost use Rattle.cycle.specs.State.{state_length, marked_count, miscounted};

use gates::mark_bit;
use image::Sizes;

// The length of a state, by the sizes of its netlist.
pub fn state_length(z: Sizes) -> usize
    requires { z.registers < 65536 }
    ensures { result ≡ state_length z }
{
    z.registers + 2
}

// The number of marked registers, by their bytes.
pub fn count_marked(registers: &[u8]) -> u16
    requires { length registers.now < 65536 }
    ensures { result ≡ marked_count registers.now }
{
    registers.iter().map(|x| mark_bit(*x)).sum()
}

// Whether the count that stands behind so many registers is not the number of those that are marked.
pub fn wrong_count(registers: usize, state: &[u8]) -> bool
    requires { (registers < 65536) × (length state.now ≡ registers + 2) }
    ensures { result ≡ miscounted registers state.now }
{
    let n = count_marked(&state[..registers]);
    u16::from_le_bytes([state[registers], state[registers + 1]]) != n
}
