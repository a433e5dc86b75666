// A step: one cycle.
ghost use Rattle.std.specs.Prelude.{◌≡◌};
ghost use Rattle.cycle.specs.Answers.{stepped};
ghost use Rattle.cycle.specs.Calls.{step_of};

use crate::refusing::step_refusal;
use cycle::Verdict;
use cycle_parts::{clock, verdict_of, work_out};
use gates::table;
use image::{put_u16, sizes_of};
use refusals::Refusal;

// One cycle on a row of I bytes: it fills N net bytes, answers with the verdict, and then clocks the state, whose marked registers it counts in
// the same pass. It turns back with 1 to 8, 10 to 14, and 20.
pub fn step(image: &[u8], state: &mut [u8], row: &[u8], nets: &mut [u8]) -> Result<Verdict, Refusal>
    ensures { stepped result state.new nets.new
        ≡ step_of image.now state.old row.now nets.old }
{
    step_refusal(image, state, row, nets)?;
    let z = sizes_of(image);
    let t = table();
    work_out(image, z.nets, &t, row, &state[..z.registers], nets);
    let verdict = verdict_of(image, z.nets, nets);
    let marked = clock(image, z.nets, nets, &mut state[..z.registers]);
    put_u16(state, z.registers, usize::from(marked));
    Ok(verdict)
}
