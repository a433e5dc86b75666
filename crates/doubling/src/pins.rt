// The two pins that a pin becomes.
ghost use Rattle.std.specs.Prelude.{◌≡◌, ◌+◌, ◌-◌, ◌≤◌, ◌<◌, get_or};
ghost use Rattle.image.specs.Pins.{pin_net, like_pin};
ghost use Rattle.large_groups.specs.Room.{PairFits};

use image::pin_net;
use large_groups::Pair;

// For a pin to net i: a pin to start i with the top bit as it has it, and one to start i + 1 less 1 without the bit.
pub fn pair_of(starts: &[u16; 8193], p: usize) -> Pair
    requires p_bound { (p < 65536) × (pin_net p < 8192) }
    requires starts_bound { (get_or starts.now (pin_net p) 0 ≤ 8192) × (0 < get_or starts.now (pin_net p + 1) 0) }
    ensures { (result.value ≡ like_pin p (get_or starts.now (pin_net p) 0)) × (result.mark ≡ get_or starts.now (pin_net p + 1) 0 - 1) × PairFits result }
{
    let i = pin_net(p);
    Pair {
        value: p - i + usize::from(starts[i]),
        mark: usize::from(starts[i + 1]) - 1,
    }
}
