// A static run: many cycles, with unknown bits.
ghost use Rattle.std.specs.Prelude.{◌≡◌};
ghost use Rattle.cycle.specs.Answers.{ran};
ghost use Rattle.static_run.specs.StaticCalls.{static_run_of};

use crate::refusing::static_run_refusal;
use cycle::FirstFlow;
use refusals::Refusal;
use run_cycles::cycles;

// K cycles on K × I row codes: it fills K × O output codes, leaves the last state, and answers with the first flow. It turns back with 1 to 10, 12, 14 and 18.
// A run differs from it in more than the width: its state has a count behind the registers.
pub fn static_run(
    image: &[u8],
    k: usize,
    state: &mut [u8],
    rows: &[u8],
    outputs: &mut [u8],
) -> Result<FirstFlow, Refusal>
    ensures { ran result state.new outputs.new
        ≡ static_run_of image.now state.old k rows.now outputs.old }
{
    static_run_refusal(image, k, state, rows, outputs)?;
    Ok(cycles(image, 8, k, state, rows, outputs))
}
