// The verdict of a cycle.
ghost use Rattle.std.specs.Prelude.{◌≡◌, ◌&&◌, ◌+◌, ◌*◌, ◌<◌, eqb, length, get_or};
ghost use Rattle.std.proofs.Math.Option.{none};
ghost use Rattle.gates.specs.Kinds.{OUT};
ghost use Rattle.gates.specs.Rules.{mark};
ghost use Rattle.image.specs.Image.{sizes_of, kind_at, operand_at, nets_of};
ghost use Rattle.checking.specs.Check.{check_refusal};
ghost use Rattle.cycle.specs.Answers.{verdict_in};
ghost use Rattle.cycle.specs.Cycle.{verdict_from};

use cycle::Verdict;
use gates::{Kind, marked};
use image::{kind_of, operand_of};

// Whether net i is a protected OUT with mark 1.
fn flows(image: &[u8], i: usize, nets: &[u8]) -> bool
    requires { (i < (sizes_of image.now).nets) × (length image.now ≡ 8 + 7 * (sizes_of image.now).nets) × (i < length nets.now) }
    ensures { result ≡ (eqb (kind_at image.now i) OUT && eqb (operand_at image.now (sizes_of image.now).nets i 1) 1 && mark (get_or nets.now i 0)) }
{
    kind_of(image, i) == Kind::Out as u8 && operand_of(image, i, 1) == 1 && marked(nets[i])
}

// A flow at the lowest-numbered protected OUT with mark 1, or clear.
pub fn verdict_of(image: &[u8], n: usize, nets: &[u8]) -> Verdict
    requires image_value { check_refusal image.now ≡ none }
    requires n_value { (n ≡ (sizes_of image.now).nets) × (length nets.now ≡ n) }
    ensures { verdict_in result ≡ verdict_from mark 0 (nets_of image.now) nets.now }
{
    let mut verdict = Verdict::Clear;
    for i in 0..n {
        if flows(image, i, nets) {
            verdict = Verdict::Flow(i);
            break;
        }
    }
    verdict
}
