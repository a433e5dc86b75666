// What a pin reads, by the bytes of all nets.
ghost use Rattle.std.specs.Prelude.{◌≡◌, ◌<◌, length, get_or};
ghost use Rattle.gates.specs.Rules.{gate_byte};
ghost use Rattle.image.specs.Pins.{pin_net};
ghost use Rattle.cycle.specs.Cycle.{pin_byte};

use gates::inverted_if;
use image::pin_net;

// The byte of the net that a pin names, its value inverted where the pin's top bit is set. There is no branch on the bit.
#[tactic(auto, using(image::proofs::PinNets::top_digit), unfolding(cycle::specs::Cycle::pin_byte, gates::specs::Rules::gate_byte))]
pub fn pin_byte(nets: &[u8], p: usize) -> u8
    requires { (p < 65536) × (pin_net p < length nets.now) × (get_or nets.now (pin_net p) 0 < 4) }
    ensures { result ≡ pin_byte gate_byte nets.now p }
{
    inverted_if(nets[pin_net(p)], (p / 32768) as u8)
}
