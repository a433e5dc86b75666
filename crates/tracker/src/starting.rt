// Power-up.
ghost use Rattle.std.specs.Prelude.{◌≡◌};
ghost use Rattle.cycle.specs.Answers.{powered_up};
ghost use Rattle.cycle.specs.Calls.{power_up_of};

use crate::refusing::power_up_refusal;
use cycle_parts::take_starts;
use image::{put_u16, sizes_of};
use refusals::Refusal;

// Every register takes its start value, trusted; or, where none is given, value 0 and mark 1; and behind them stands how many are marked. What the state held is
// not looked at. It turns back with 1 to 8 and 10.
pub fn power_up(image: &[u8], state: &mut [u8]) -> Result<(), Refusal>
    ensures { powered_up result state.new ≡ power_up_of image.now state.old }
{
    power_up_refusal(image, state)?;
    let z = sizes_of(image);
    let marked = take_starts(image, z.nets, 2, &mut state[..z.registers]);
    put_u16(state, z.registers, usize::from(marked));
    Ok(())
}
