// The group of a net, by its kind: its nets are written in document 01's order, as the nets from v on of an image of `size` nets. The value pin and
// the mark pin of pin a are a.value and a.mark, in comments va and ta; and so for b and c.
ghost use Rattle.std.specs.Prelude.{◌≡◌, ◌≤◌};
ghost use Rattle.image.specs.Writing.{Fits, put_nets};
ghost use Rattle.groups.specs.Groups.{group_length, mark_start, group_by};
ghost use Rattle.large_groups.specs.Room.{Room, PairFits};

use gates::Kind;
use image::Net;
use large_groups::{Pair, gate, put_and, put_mux, put_or, put_two};

// The start of a mark register, by the start b of its source.
fn mark_start(b: usize) -> usize
    ensures { result ≡ mark_start b }
{
    if b == 2 { 1 } else { 0 }
}

// The group of a net x, from the value pins and mark pins of its pins. The buffer, the size and the place stay apart, as in `put_and`.
pub fn put_group(d: &mut [u8], size: usize, v: usize, x: Net, a: Pair, b: Pair, c: Pair)
    requires kind_bound { (x.kind ≤ 8) × Room d.old size v (group_length x.kind) }
    requires fits { Fits x × PairFits a × PairFits b × PairFits c }
    ensures { d.new ≡ put_nets d.old size v (group_by v x a.value a.mark b.value b.mark c.value c.mark) }
{
    let Ok(kind) = Kind::try_from(x.kind) else {
        unreachable!()
    };
    match kind {
        // CONST a; CONST 0.
        Kind::Const => put_two(d, size, v, gate(kind, x.a, 0), gate(kind, 0, 0)),
        // INPUT; INPUT.
        Kind::Input => put_two(d, size, v, gate(kind, 0, 0), gate(kind, 0, 0)),
        // REG on va with start b; REG on ta, which starts at 1 where b is 2.
        Kind::Reg => put_two(
            d,
            size,
            v,
            gate(kind, a.value, x.b),
            gate(kind, a.mark, mark_start(x.b)),
        ),
        // NOT va; OR(ta, ta).
        Kind::Not => put_two(
            d,
            size,
            v,
            gate(kind, a.value, 0),
            gate(Kind::Or, a.mark, a.mark),
        ),
        Kind::And => put_and(d, size, v, a, b),
        Kind::Or => put_or(d, size, v, a, b),
        // XOR(va, vb); OR(ta, tb).
        Kind::Xor => put_two(
            d,
            size,
            v,
            gate(kind, a.value, b.value),
            gate(Kind::Or, a.mark, b.mark),
        ),
        Kind::Mux => put_mux(d, size, v, a, b, c),
        // OUT va, free; OUT ta, free.
        Kind::Out => put_two(d, size, v, gate(kind, a.value, 0), gate(kind, a.mark, 0)),
    }
}
