// The call that says how big the doubled netlist gets.
ghost use Rattle.std.specs.Prelude.{◌≡◌};
ghost use Rattle.std.proofs.Math.Option.{none};
ghost use Rattle.image.specs.Image.{sizes_of, nets_of};
ghost use Rattle.checking.specs.Check.{check_refusal};
ghost use Rattle.doubled.specs.Doubled.{doubled_size};
ghost use Rattle.figures.specs.Figures.{no_figures, doubled_size_of};
ghost use Rattle.figures.specs.Answers.{figures};

use crate::answer::DoubledSize;
use crate::counting::count_kinds;
use checking::check;
use doubled::group_lengths;
use image::{kind_of, sizes_of};
use refusals::{Condition, Refusal};

// The nets of the doubled netlist of an accepted image: the group lengths, summed.
#[tactic(auto, using(doubled::proofs::Sums::accepted))]
fn sum_lengths(image: &[u8], n: usize) -> usize
    requires { (check_refusal image.now ≡ none) × (n ≡ (sizes_of image.now).nets) }
    ensures { result ≡ doubled_size (nets_of image.now) }
{
    let lengths = group_lengths();
    let mut size = 0;
    for i in 0..n {
        size += usize::from(lengths[usize::from(kind_of(image, i))]);
    }
    size
}

// A refusal, with all figures 0.
fn no_size(r: Refusal) -> DoubledSize
    ensures { figures result ≡ no_figures r }
{
    DoubledSize {
        outcome: Err(r),
        nets: 0,
        bytes: 0,
        kinds: [0u16; 9],
    }
}

// The nets and bytes of the doubled netlist, and its nets of each kind. Nothing is written. It turns back with 1 to 8 and 15, as doubling does.
#[tactic(auto, using(crate::proofs::Refusing::not_checked, crate::proofs::Refusing::too_large, crate::proofs::Refusing::fits))]
pub fn doubled_size(image: &[u8]) -> DoubledSize
    ensures { figures result ≡ doubled_size_of image.now }
{
    if let Err(r) = check(image) {
        return no_size(r);
    }
    let n = sizes_of(image).nets;
    let size = sum_lengths(image, n);
    if 8192 < size {
        return no_size(Condition::DoubledNets.at(0));
    }
    DoubledSize {
        outcome: Ok(()),
        nets: size,
        bytes: 8 + 7 * size,
        kinds: count_kinds(image, n),
    }
}
