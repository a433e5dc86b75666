// The registers of a netlist: their bytes at power-up, and after a clock. They are counted in the pass that sets them.
ghost use Rattle.std.specs.Prelude.{◌≡◌, ℕ, ◌<◌, length};
ghost use Rattle.std.proofs.Math.Option.{none};
ghost use Rattle.gates.specs.Kinds.{REG};
ghost use Rattle.gates.specs.Rules.{gate_byte};
ghost use Rattle.image.specs.declared.image.Net.{Net};
ghost use Rattle.image.specs.Image.{sizes_of, kind_at, net_at, nets_of};
ghost use Rattle.checking.specs.Check.{check_refusal};
ghost use Rattle.cycle.specs.State.{marked_count};
ghost use Rattle.cycle.specs.Codes.{Low};
ghost use Rattle.cycle.specs.Cycle.{registers, clocked};
ghost use Rattle.cycle_parts.specs.Starting.{start_by, starts_by};

use crate::pins::pin_byte;
use gates::{Kind, mark_bit};
use image::{kind_of, operand_of};

// The byte that a register powers up with, by its operand b: the start value, trusted; or, where none is given, `wake`.
#[tactic(auto, unfolding(crate::specs::Starting::start_by, cycle::specs::Calls::start, gates::specs::Rules::byte))]
fn start_byte(b: usize, wake: u8) -> u8
    ensures { result ≡ start_by wake b }
{
    match b {
        1 => 1,
        2 => wake,
        _ => 0,
    }
}

// Every register takes the byte that `byte_of` gives for its net. The answer is how many are then marked.
// The place in the state is counted, since it goes on at REGs alone.
fn set_registers<F: Fn(usize) -> u8>(image: &[u8], n: usize, byte_of: F, state: &mut [u8]) -> u16
    ghost byte: { Net → ℕ }
    requires image_value { check_refusal image.now ≡ none }
    requires n_value { (n ≡ (sizes_of image.now).nets) × (length state.old ≡ (sizes_of image.now).registers) }
    requires callable { (i : ℕ) → i < n → kind_at image.now i ≡ REG → F.pre byte_of i }
    requires gives { (i x : ℕ) → i < n → kind_at image.now i ≡ REG → F.post byte_of i x → x ≡ byte (net_at image.now n i) }
    ensures state_after { state.new ≡ registers byte (nets_of image.now) }
    ensures value { result ≡ marked_count (registers byte (nets_of image.now)) }
{
    let mut marked = 0;
    let mut j = 0;
    for i in 0..n {
        if kind_of(image, i) == Kind::Reg as u8 {
            let x = byte_of(i);
            state[j] = x;
            marked += mark_bit(x);
            j += 1;
        }
    }
    marked
}

// Every register takes its start byte; one without a start takes `wake`. The answer is how many are then marked.
pub fn take_starts(image: &[u8], n: usize, wake: u8, state: &mut [u8]) -> u16
    requires image_value { check_refusal image.now ≡ none }
    requires n_value { (n ≡ (sizes_of image.now).nets) × (length state.old ≡ (sizes_of image.now).registers) }
    ensures state_after { state.new ≡ starts_by wake (nets_of image.now) }
    ensures value { result ≡ marked_count (starts_by wake (nets_of image.now)) }
{
    set_registers(
        image,
        n,
        |i| start_byte(operand_of(image, i, 1), wake),
        state,
    )
}

// The clock: every register takes what its pin reads, all together. The answer is how many are then marked.
pub fn clock(image: &[u8], n: usize, nets: &[u8], state: &mut [u8]) -> u16
    requires image_value { check_refusal image.now ≡ none }
    requires n_value { (n ≡ (sizes_of image.now).nets) × (length nets.now ≡ n) × (length state.old ≡ (sizes_of image.now).registers) × Low nets.now }
    ensures state_after { state.new ≡ clocked gate_byte (nets_of image.now) nets.now }
    ensures value { result ≡ marked_count (clocked gate_byte (nets_of image.now) nets.now) }
{
    set_registers(image, n, |i| pin_byte(nets, operand_of(image, i, 0)), state)
}
