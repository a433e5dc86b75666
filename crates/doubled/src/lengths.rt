// Where the groups of the doubled netlist begin.
ghost use Rattle.std.specs.Prelude.{◌≡◌};
ghost use Rattle.std.proofs.Math.Option.{none};
ghost use Rattle.image.specs.Image.{sizes_of, nets_of};
ghost use Rattle.checking.specs.Check.{check_refusal};
ghost use Rattle.groups.specs.Groups.{group_lengths};
ghost use Rattle.doubled.specs.Starts.{Starts};

use image::kind_of;

// The group lengths for kinds 0 to 8.
const GROUP_LENGTHS: [u16; 9] = [2, 2, 2, 2, 6, 8, 2, 7, 2];

// The table by value, which is taken before a loop: a constant is copied to the stack wherever it is named.
pub fn group_lengths() -> [u16; 9]
    ensures { result ≡ group_lengths }
{
    GROUP_LENGTHS
}

// For each net the first net of its group, and behind the last net the doubled size: the group lengths, summed. The pin of a REG may name a later net, so
// all of them are there before the first group is written. An accepted netlist doubles to at most 8 × 8,192 − 6 nets, which a u16 holds.
#[tactic(auto, using(crate::proofs::Sums::accepted))]
pub fn starts_of(image: &[u8], n: usize) -> [u16; 8193]
    requires image_value { check_refusal image.now ≡ none }
    requires n_value { n ≡ (sizes_of image.now).nets }
    ensures { Starts result (nets_of image.now) }
{
    let lengths = group_lengths();
    let mut starts = [0u16; 8193];
    let mut size: u16 = 0;
    for i in 0..n {
        size += lengths[usize::from(kind_of(image, i))];
        starts[i + 1] = size;
    }
    // Behind the last net too: an operand that is no pin is looked up like one, and may name no net.
    starts[n + 1..].fill(size);
    starts
}
