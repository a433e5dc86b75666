// Pins: operands that name a net. With the top bit set, a pin reads its net inverted.
ghost use Rattle.std.specs.Prelude.{◌≡◌, ◌<◌};
ghost use Rattle.image.specs.Pins.{pin_net};

// The net that a pin names.
#[tactic(auto, using(crate::proofs::PinNets::net_rest))]
pub fn pin_net(p: usize) -> usize
    requires { p < 65536 }
    ensures { result ≡ pin_net p }
{
    p % 32768
}
