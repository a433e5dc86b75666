// The groups of AND, OR and MUX: their nets are written in document 01's order, as the nets from v on of an image of `size` nets. The value pin and
// the mark pin of pin a are a.value and a.mark, in comments va and ta; and so for b and c.
// The image, its size and the place are three parameters, since the contracts of `put_and`, `put_or` and `put_mux` name each.
ghost use Rattle.std.specs.Prelude.{◌≡◌, [], ◌∷◌, ◌<◌};
ghost use Rattle.gates.specs.Kinds.{number_of};
ghost use Rattle.image.specs.Image.{net};
ghost use Rattle.image.specs.Writing.{Fits, put_nets};
ghost use Rattle.groups.specs.Groups.{and_group, or_group, mux_group};
ghost use Rattle.large_groups.specs.Room.{Room, PairFits};

use crate::pair::Pair;
use gates::Kind;
use image::{Net, put_net};

// A net of three operands.
fn net(kind: Kind, a: usize, b: usize, c: usize) -> Net
    requires { (a < 65536) × (b < 65536) × (c < 65536) }
    ensures { (result ≡ net (number_of kind) a b c) × Fits result }
{
    let kind = kind as u8;
    Net { kind, a, b, c }
}

// A net of two operands.
pub fn gate(kind: Kind, a: usize, b: usize) -> Net
    requires { (a < 65536) × (b < 65536) }
    ensures { (result ≡ net (number_of kind) a b 0) × Fits result }
{
    net(kind, a, b, 0)
}

// Nets i and i + 1.
pub fn put_two(d: &mut [u8], size: usize, i: usize, one: Net, two: Net)
    requires { Room d.old size i 2 × Fits one × Fits two }
    ensures { d.new ≡ put_nets d.old size i (one ∷ two ∷ []) }
{
    put_net(d, size, i, one);
    put_net(d, size, i + 1, two);
}

// The group of an AND.
pub fn put_and(d: &mut [u8], size: usize, v: usize, a: Pair, b: Pair)
    requires { Room d.old size v 6 × PairFits a × PairFits b }
    ensures { d.new ≡ put_nets d.old size v (and_group v a.value a.mark b.value b.mark) }
{
    let p = v + 1;
    let q = v + 2;
    let r = v + 3;
    let s = v + 4;
    // AND(va, vb); p = AND(ta, vb); q = AND(tb, va); r = AND(ta, tb).
    put_net(d, size, v, gate(Kind::And, a.value, b.value));
    put_net(d, size, p, gate(Kind::And, a.mark, b.value));
    put_net(d, size, q, gate(Kind::And, b.mark, a.value));
    put_net(d, size, r, gate(Kind::And, a.mark, b.mark));
    // s = OR(p, q); OR(s, r).
    put_net(d, size, s, gate(Kind::Or, p, q));
    put_net(d, size, v + 5, gate(Kind::Or, s, r));
}

// The group of an OR. Its last three nets are like those of an AND, but what p and q read differs, and each group stands here whole.
pub fn put_or(d: &mut [u8], size: usize, v: usize, a: Pair, b: Pair)
    requires { Room d.old size v 8 × PairFits a × PairFits b }
    ensures { d.new ≡ put_nets d.old size v (or_group v a.value a.mark b.value b.mark) }
{
    let m = v + 1;
    let n = v + 2;
    let p = v + 3;
    let q = v + 4;
    let r = v + 5;
    let s = v + 6;
    // OR(va, vb); m = NOT va; n = NOT vb.
    put_net(d, size, v, gate(Kind::Or, a.value, b.value));
    put_net(d, size, m, gate(Kind::Not, a.value, 0));
    put_net(d, size, n, gate(Kind::Not, b.value, 0));
    // p = AND(ta, n); q = AND(tb, m); r = AND(ta, tb).
    put_net(d, size, p, gate(Kind::And, a.mark, n));
    put_net(d, size, q, gate(Kind::And, b.mark, m));
    put_net(d, size, r, gate(Kind::And, a.mark, b.mark));
    // s = OR(p, q); OR(s, r).
    put_net(d, size, s, gate(Kind::Or, p, q));
    put_net(d, size, v + 7, gate(Kind::Or, s, r));
}

// The group of a MUX.
pub fn put_mux(d: &mut [u8], size: usize, v: usize, a: Pair, b: Pair, c: Pair)
    requires { Room d.old size v 7 × PairFits a × PairFits b × PairFits c }
    ensures { d.new ≡ put_nets d.old size v (mux_group v a.value a.mark b.value b.mark c.value c.mark) }
{
    let p = v + 1;
    let q = v + 2;
    let r = v + 3;
    let w = v + 4;
    let z = v + 5;
    // MUX(va, vb, vc); p = XOR(va, vb); q = OR(ta, tb).
    put_net(d, size, v, net(Kind::Mux, a.value, b.value, c.value));
    put_net(d, size, p, gate(Kind::Xor, a.value, b.value));
    put_net(d, size, q, gate(Kind::Or, a.mark, b.mark));
    // r = OR(p, q); w = AND(tc, r); z = MUX(ta, tb, vc); OR(w, z).
    put_net(d, size, r, gate(Kind::Or, p, q));
    put_net(d, size, w, gate(Kind::And, c.mark, r));
    put_net(d, size, z, net(Kind::Mux, a.mark, b.mark, c.value));
    put_net(d, size, v + 6, gate(Kind::Or, w, z));
}
