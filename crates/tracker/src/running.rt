// A run: many cycles.
ghost use Rattle.std.specs.Prelude.{◌≡◌};
ghost use Rattle.cycle.specs.Answers.{ran};
ghost use Rattle.cycle.specs.Calls.{run_of};

use crate::refusing::run_refusal;
use cycle::{FirstFlow, count_marked};
use image::{put_u16, sizes_of};
use refusals::Refusal;
use run_cycles::cycles;

// K cycles on K × I row bytes: it fills K × O output bytes, leaves the last state, whose marked registers it counts at the end, and answers with the first flow.
// It turns back with 1 to 14, and 20.
pub fn run(
    image: &[u8],
    k: usize,
    state: &mut [u8],
    rows: &[u8],
    outputs: &mut [u8],
) -> Result<FirstFlow, Refusal>
    ensures { ran result state.new outputs.new
        ≡ run_of image.now state.old k rows.now outputs.old }
{
    run_refusal(image, k, state, rows, outputs)?;
    let registers = sizes_of(image).registers;
    let first = cycles(image, 4, k, &mut state[..registers], rows, outputs);
    let marked = count_marked(&state[..registers]);
    put_u16(state, registers, usize::from(marked));
    Ok(first)
}
