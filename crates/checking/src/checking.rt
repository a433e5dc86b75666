// Checking: refusals 1 to 8, in one pass over the nets.
ghost use Rattle.std.specs.Prelude.{◌≡◌, ◌+◌, ◌*◌, ◌≤◌, length};
ghost use Rattle.image.specs.Image.{sizes_of, nets_of};
ghost use Rattle.refusals.specs.Refusals.{refuse, refusal_in, ◌then◌};
ghost use Rattle.checking.specs.Counts.{kind_counts};
ghost use Rattle.checking.specs.Check.{nets_refusal, wrong_counts, check_refusal};

use gates::Kind;
use image::{net_of, sizes_of};
use net_checking::{check_net, limit_places};
use refusals::{Condition, Refusal};

// 8: I, R or O is not the number of nets of its kind, where the nets are counted by kind.
#[tactic(auto, unfolding(crate::specs::Counts::kind_counts))]
fn wrong_counts(s: &[u8], counts: &[usize; 9]) -> bool
    requires { (8 ≤ length s.now) × (counts.now ≡ kind_counts (nets_of s.now)) }
    ensures { result ≡ wrong_counts s.now }
{
    let z = sizes_of(s);
    (z.inputs != counts[Kind::Input as usize])
        | (z.registers != counts[Kind::Reg as usize])
        | (z.outputs != counts[Kind::Out as usize])
}

// Refusals 4 to 8 of an image of n nets whose length is right. At net i, `limits` are those of its operands, among which only the net's own
// number changes from net to net, and `counts` has the nets before it, by kind.
fn check_nets(s: &[u8], n: usize) -> Result<(), Refusal>
    requires { (n ≡ (sizes_of s.now).nets) × (n ≤ 8192) × (length s.now ≡ 8 + 7 * n) }
    ensures { refusal_in result
        ≡ (nets_refusal n 0 (nets_of s.now) then refuse (wrong_counts s.now) 8 0) }
{
    let places = limit_places();
    let mut limits = [65535, 1, 65535, 2, 65535, 3, 32767, 0, 32767, n];
    let mut counts = [0usize; 9];
    for i in 0..n {
        limits[7] = i;
        let x = net_of(s, i);
        check_net(&places, &limits, n, i, x)?;
        counts[x.kind as usize] += 1;
    }
    if wrong_counts(s, &counts) {
        return Err(Condition::Counts.at(0));
    }
    Ok(())
}

// Whether an image is accepted: the first of refusals 1 to 8 that applies, or done. It answers no type of accepted images: `work_out`, `clock`, `verdict_of`,
// `list_nets`, `find_parts`, `set_constants`, `settle_nets` and `starts_of` ask for `check_refusal image.now ≡ none` of a slice, and may not ask otherwise.
#[tactic(auto, unfolding(crate::specs::Check::check_refusal))]
pub fn check(image: &[u8]) -> Result<(), Refusal>
    ensures { refusal_in result ≡ check_refusal image.now }
{
    if image.len() < 8 {
        return Err(Condition::ShortImage.at(0));
    }
    let z = sizes_of(image);
    if (z.nets == 0) | (8192 < z.nets) {
        return Err(Condition::NetCount.at(0));
    }
    if image.len() != 8 + 7 * z.nets {
        return Err(Condition::ImageLength.at(0));
    }
    check_nets(image, z.nets)
}
