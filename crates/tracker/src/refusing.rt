// When power-up, step and run turn back: 1 to 8 by checking, and then 9 to 14, with 20 directly after 11.
ghost use Rattle.std.specs.Prelude.{◌≡◌, ◌<◌};
ghost use Rattle.refusals.specs.Refusals.{◌then◌, plain_bytes, alphabet_of, refusal_in};
ghost use Rattle.cycle.specs.Calls.{power_up_refusal, state_refusal, lent_refusal, step_refusal, run_refusal};

use checking::check;
use cycle::{state_length, wrong_count};
use image::{Sizes, sizes_of};
use refusals::{Bytes, Condition, Refusal, byte_refusal, codes_refusal};

// 10, 11 and 20: the state's length, its register bytes, and its count.
#[tactic(auto, unfolding(cycle::specs::Calls::state_refusal, refusals::specs::Refusals::bad_length))]
fn state_refusal(z: Sizes, state: &[u8]) -> Result<(), Refusal>
    requires { z.registers < 65536 }
    ensures { refusal_in result ≡ state_refusal z state.now }
{
    if state.len() != state_length(z) {
        return Err(Condition::StateLength.at(0));
    }
    byte_refusal(Condition::StateByte.number(), 3, &state[..z.registers])?;
    if wrong_count(z.registers, state) {
        return Err(Condition::MarkedCount.at(0));
    }
    Ok(())
}

// 12 to 14, by the bytes that a call takes, and by the numbers of bytes that are wanted in the rows and in the buffer.
#[tactic(auto, unfolding(refusals::specs::Refusals::bad_length))]
pub fn lent_refusal_by(
    bytes: Bytes,
    inputs: usize,
    filled: usize,
    rows: &[u8],
    buffer: &[u8],
) -> Result<(), Refusal>
    ensures { refusal_in result ≡ lent_refusal (alphabet_of bytes) inputs filled rows.now buffer.now }
{
    codes_refusal(
        Condition::RowsLength.number(),
        bytes.in_rows,
        inputs,
        bytes.top,
        rows,
    )?;
    if buffer.len() != filled {
        return Err(Condition::BufferLength.at(0));
    }
    Ok(())
}

// 10 to 14 and 20 of the plain calls, which take bytes 0 to 3.
fn lent_refusal(
    z: Sizes,
    inputs: usize,
    filled: usize,
    state: &[u8],
    rows: &[u8],
    buffer: &[u8],
) -> Result<(), Refusal>
    requires { z.registers < 65536 }
    ensures { refusal_in result
        ≡ (state_refusal z state.now then lent_refusal plain_bytes inputs filled rows.now buffer.now) }
{
    state_refusal(z, state)?;
    let bytes = Bytes {
        top: 3,
        in_rows: Condition::RowByte.number(),
    };
    lent_refusal_by(bytes, inputs, filled, rows, buffer)
}

// Power-up: 1 to 8 and 10.
#[tactic(auto, using(checking::proofs::Checked::check_none), unfolding(cycle::specs::Calls::power_up_refusal, refusals::specs::Refusals::bad_length))]
pub fn power_up_refusal(image: &[u8], state: &[u8]) -> Result<(), Refusal>
    ensures { refusal_in result ≡ power_up_refusal image.now state.now }
{
    check(image)?;
    let z = sizes_of(image);
    if state.len() != state_length(z) {
        return Err(Condition::StateLength.at(0));
    }
    Ok(())
}

// A step: 1 to 8, 10 to 14, and 20.
#[tactic(auto, using(checking::proofs::Checked::check_none), unfolding(cycle::specs::Calls::step_refusal))]
pub fn step_refusal(image: &[u8], state: &[u8], row: &[u8], nets: &[u8]) -> Result<(), Refusal>
    ensures { refusal_in result ≡ step_refusal image.now state.now row.now nets.now }
{
    check(image)?;
    let z = sizes_of(image);
    lent_refusal(z, z.inputs, z.nets, state, row, nets)
}

// A run: 1 to 14, and 20. The number of cycles is tested before anything is multiplied by it.
#[tactic(auto, using(checking::proofs::Checked::check_none), unfolding(cycle::specs::Calls::run_refusal))]
pub fn run_refusal(
    image: &[u8],
    k: usize,
    state: &[u8],
    rows: &[u8],
    outputs: &[u8],
) -> Result<(), Refusal>
    ensures { refusal_in result ≡ run_refusal image.now state.now k rows.now outputs.now }
{
    check(image)?;
    if 4096 < k {
        return Err(Condition::Cycles.at(0));
    }
    let z = sizes_of(image);
    lent_refusal(z, k * z.inputs, k * z.outputs, state, rows, outputs)
}
