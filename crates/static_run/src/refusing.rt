// When the static calls turn back: 1 to 8 by checking, and then 9 to 14, with 18 where plain calls have 11 and 13. The chains are not those of the plain
// calls with other numbers: 18 stands in two places, and there is no 20.
ghost use Rattle.std.specs.Prelude.{◌≡◌};
ghost use Rattle.refusals.specs.Refusals.{refusal_in};
ghost use Rattle.static_run.specs.StaticCalls.{static_power_up_refusal, static_run_refusal};

use checking::check;
use image::sizes_of;
use refusals::{Bytes, Condition, Refusal, codes_refusal};
use tracker::lent_refusal_by;

// Static power-up: 1 to 8 and 10.
#[tactic(auto, using(checking::proofs::Checked::check_none), unfolding(crate::specs::StaticCalls::static_power_up_refusal, refusals::specs::Refusals::bad_length))]
pub fn static_power_up_refusal(image: &[u8], state: &[u8]) -> Result<(), Refusal>
    ensures { refusal_in result ≡ static_power_up_refusal image.now state.now }
{
    check(image)?;
    let z = sizes_of(image);
    if state.len() != z.registers {
        return Err(Condition::StateLength.at(0));
    }
    Ok(())
}

// A static run: 1 to 10, 18 of the state, 12, 18 of the rows, 14. The number of cycles is tested before anything is multiplied by it.
#[tactic(auto, using(checking::proofs::Checked::check_none, refusals::proofs::Refusals::then_assoc), unfolding(crate::specs::StaticCalls::static_run_refusal))]
pub fn static_run_refusal(
    image: &[u8],
    k: usize,
    state: &[u8],
    rows: &[u8],
    outputs: &[u8],
) -> Result<(), Refusal>
    ensures { refusal_in result ≡ static_run_refusal image.now state.now k rows.now outputs.now }
{
    check(image)?;
    if 4096 < k {
        return Err(Condition::Cycles.at(0));
    }
    let z = sizes_of(image);
    let code = Condition::Code.number();
    codes_refusal(Condition::StateLength.number(), code, z.registers, 6, state)?;
    let bytes = Bytes {
        top: 6,
        in_rows: code,
    };
    lent_refusal_by(bytes, k * z.inputs, k * z.outputs, rows, outputs)
}
