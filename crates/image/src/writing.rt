// Writing an image: its sizes, and its nets one by one.
ghost use Rattle.std.specs.Prelude.{◌≡◌, [], ◌∷◌, ◌+◌, ◌*◌, ◌<◌, ◌≤◌, length};
ghost use Rattle.std.proofs.lemmas.List.Edits.{sets};
ghost use Rattle.image.specs.Image.{u16, size_bytes, operands};
ghost use Rattle.image.specs.Writing.{Fits, put_net};

use crate::image::{Net, Sizes};

// A u16 at p, low byte first.
pub fn put_u16(d: &mut [u8], p: usize, x: usize)
    requires { (p + 1 < length d.old) × (x < 65536) }
    ensures { d.new ≡ sets d.old p (u16 x) }
{
    d[p..p + 2].copy_from_slice(&(x as u16).to_le_bytes());
}

// The four sizes, at the start.
pub fn put_sizes(d: &mut [u8], z: Sizes)
    requires in_bounds { 8 ≤ length d.old }
    requires nets_bound { (z.nets < 65536) × (z.inputs < 65536) × (z.registers < 65536) × (z.outputs < 65536) }
    ensures { d.new ≡ sets d.old 0 (size_bytes z) }
{
    put_u16(d, 0, z.nets);
    put_u16(d, 2, z.inputs);
    put_u16(d, 4, z.registers);
    put_u16(d, 6, z.outputs);
}

// The three operands of a net, from p on.
fn put_operands(d: &mut [u8], p: usize, x: Net)
    requires { (p + 5 < length d.old) × Fits x }
    ensures { d.new ≡ sets d.old p (operands (x ∷ [])) }
{
    put_u16(d, p, x.a);
    put_u16(d, p + 2, x.b);
    put_u16(d, p + 4, x.c);
}

// Net i of an image of n nets: its kind, and its operands.
#[tactic(auto, unfolding(crate::specs::Writing::put_net))]
pub fn put_net(d: &mut [u8], n: usize, i: usize, x: Net)
    requires { (i < n) × (length d.old ≡ 8 + 7 * n) × Fits x }
    ensures { d.new ≡ put_net d.old n i x }
{
    d[8 + i] = x.kind;
    put_operands(d, 8 + n + 6 * i, x);
}
