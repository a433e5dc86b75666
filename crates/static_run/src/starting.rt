// Static power-up.
ghost use Rattle.std.specs.Prelude.{◌≡◌};
ghost use Rattle.cycle.specs.Answers.{powered_up};
ghost use Rattle.static_run.specs.StaticCalls.{static_power_up_of};

use crate::refusing::static_power_up_refusal;
use cycle_parts::take_starts;
use image::sizes_of;
use refusals::Refusal;

// Every register takes its start value, trusted; or, where none is given, 6, an unknown untrusted bit. What the state held is not looked at. It turns back with
// 1 to 8 and 10. Power-up differs from it in more than a number: its state has a count behind the registers.
pub fn static_power_up(image: &[u8], state: &mut [u8]) -> Result<(), Refusal>
    ensures { powered_up result state.new ≡ static_power_up_of image.now state.old }
{
    static_power_up_refusal(image, state)?;
    take_starts(image, sizes_of(image).nets, 6, state);
    Ok(())
}
