// A code put to a net, and its inverse 32,768 places behind.
ghost use Rattle.std.specs.Prelude.{◌≡◌, ◌+◌, ◌<◌, length};
ghost use Rattle.inverses.specs.Inverses.{put_pair};

// Net i takes the code x, whose inverse is y.
#[tactic(auto, unfolding(crate::specs::Inverses::put_pair))]
pub fn put_both(nets: &mut [u8], i: usize, x: u8, y: u8)
    requires { (i < 32768) × (32768 + i < length nets.old) }
    ensures { nets.new ≡ put_pair nets.old i x y }
{
    nets[i] = x;
    nets[32768 + i] = y;
}
