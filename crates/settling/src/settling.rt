// The bytes of all gates and OUTs of a cycle, in one pass; the other nets have theirs already. All nets stand with their inverses, so that a pin is the
// place of what it reads, and there is no branch on its top bit.
ghost use Rattle.std.specs.Prelude.{◌≡◌, cond, ℕ, ◌+◌, ◌<◌, ◌≤◌, ◌%◌, eqb, length};
ghost use Rattle.std.proofs.Math.Option.{none};
ghost use Rattle.gates.specs.Kinds.{CONST, NOT};
ghost use Rattle.image.specs.Image.{sizes_of, kind_at};
ghost use Rattle.checking.specs.Check.{check_refusal};
ghost use Rattle.inverses.specs.Inverses.{Both};
ghost use Rattle.unknowns.specs.Widths.{Tabled, Tables};
ghost use Rattle.settling.specs.Settling.{settled_at, Settled, Prepared};

use gates::Kind;
use image::{kind_of, operand_of, sizes_of};
use inverses::put_both;
use unknowns::{code_by, inverse};

// The byte of a net before the first cycle, by its kind and operand a: a CONST's own, and 0 for the others. No branch on the kind.
fn first_byte(kind: u8, a: usize) -> u8
    ensures { (result ≡ cond (eqb kind CONST) (a % 2) 0) × (result < 2) }
{
    let constant = u8::from(kind == Kind::Const as u8);
    constant * (a % 2) as u8
}

// The bytes before the first cycle: a CONST's own, and 0 elsewhere. They are known and trusted, so that a NOT of them is the other one by every rule.
pub fn set_constants(image: &[u8], n: usize, nets: &mut [u8])
    requires { (check_refusal image.now ≡ none) × (n ≡ (sizes_of image.now).nets) × (length nets.old ≡ 40960) }
    ensures { (width : ℕ) → Prepared width image.now nets.new n }
{
    for i in 0..n {
        let x = first_byte(kind_of(image, i), operand_of(image, i, 0));
        put_both(nets, i, x, 1 - x);
    }
}

// Net i takes its code where it is a gate or OUT, and keeps the one that it has where not. The width is a constant, so that the compiler works with it.
fn settle<const W: usize>(image: &[u8], t: &[u8], i: usize, nets: &mut [u8])
    requires tabled { Tabled W t.now }
    requires image_value { check_refusal image.now ≡ none }
    requires i_value { i < (sizes_of image.now).nets }
    requires nets_value { (length nets.old ≡ 40960) × Both W nets.old (sizes_of image.now).nets }
    ensures { nets.new ≡ settled_at W image.now i nets.old }
{
    let kind = kind_of(image, i);
    if Kind::Not as u8 <= kind {
        let a = operand_of(image, i, 0);
        let b = operand_of(image, i, 1);
        let c = operand_of(image, i, 2);
        let x = code_by(t, W, kind, nets[a], nets[b], nets[c]);
        put_both(nets, i, x, inverse(W, x));
    }
}

// All nets from `from` on, by the table of width W. There is no gate and no OUT below it. N is read here, ahead of the first store to the nets, so that the
// compiler has it at hand for every operand that is read through the view.
fn settle_from<const W: usize>(image: &[u8], t: &[u8], from: usize, nets: &mut [u8])
    requires tabled { Tabled W t.now }
    requires image_value { (check_refusal image.now ≡ none) × (length nets.old ≡ 40960) × Both W nets.old (sizes_of image.now).nets }
    requires from_bound { (from ≤ (sizes_of image.now).nets) × ((i : ℕ) → i < from → kind_at image.now i < NOT) }
    ensures { Settled W image.now nets.old nets.new (sizes_of image.now).nets }
{
    let n = sizes_of(image).nets;
    // Four nets to a turn, which the compiler writes out: with one to a turn a run takes an eighth more instructions.
    let fours = (n - from) / 4;
    for four in 0..fours {
        let i = from + 4 * four;
        for j in i..i + 4 {
            settle::<W>(image, t, j, nets);
        }
    }
    for j in from + 4 * fours..n {
        settle::<W>(image, t, j, nets);
    }
}

// All nets from `from` on, by the table of that width. There is no gate and no OUT below it.
pub fn settle_nets(
    image: &[u8],
    plain: &[u8],
    wide: &[u8],
    width: usize,
    from: usize,
    nets: &mut [u8],
)
    requires tables { Tables width plain.now wide.now }
    requires image_value { (check_refusal image.now ≡ none) × (length nets.old ≡ 40960) × Both width nets.old (sizes_of image.now).nets }
    requires from_bound { (from ≤ (sizes_of image.now).nets) × ((i : ℕ) → i < from → kind_at image.now i < NOT) }
    ensures { Settled width image.now nets.old nets.new (sizes_of image.now).nets }
{
    if width == 4 {
        settle_from::<4>(image, plain, from, nets);
    } else {
        settle_from::<8>(image, wide, from, nets);
    }
}
