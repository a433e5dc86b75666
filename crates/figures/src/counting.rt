// The nets of the doubled netlist, counted by kind.
ghost use Rattle.std.specs.Prelude.{◌≡◌, ◌≤◌, ◌<◌};
ghost use Rattle.std.proofs.Math.Option.{none};
ghost use Rattle.image.specs.Image.{sizes_of, nets_of};
ghost use Rattle.checking.specs.Check.{check_refusal};
ghost use Rattle.checking.specs.Counts.{kind_counts, raised};
ghost use Rattle.doubled.specs.Doubled.{doubled_size, doubled_nets};
ghost use Rattle.figures.specs.Tables.{group_kinds, places, raised_by, NineCounts};

use doubled::group_lengths;
use image::kind_of;

// The kinds of the nets of each group, in document 01's order: a line of eight places for each of kinds 0 to 8. Places behind a group's last net are not read.
const GROUP_KINDS: [u8; 72] = *b"\
    \x00\x00\x00\x00\x00\x00\x00\x00\
    \x01\x01\x00\x00\x00\x00\x00\x00\
    \x02\x02\x00\x00\x00\x00\x00\x00\
    \x03\x05\x00\x00\x00\x00\x00\x00\
    \x04\x04\x04\x04\x05\x05\x00\x00\
    \x05\x03\x03\x04\x04\x04\x05\x05\
    \x06\x05\x00\x00\x00\x00\x00\x00\
    \x07\x06\x05\x05\x04\x07\x05\x00\
    \x08\x08\x00\x00\x00\x00\x00\x00\
    ";

// The table by value, which is taken before a loop.
fn group_kinds() -> [u8; 72]
    ensures { result ≡ group_kinds }
{
    GROUP_KINDS
}

// One more net of a kind: the counts by value, with its place raised.
fn raise(counts: [u16; 9], kind: u8) -> [u16; 9]
    requires { (kind < 9) × NineCounts 65534 counts }
    ensures { result ≡ raised counts kind }
{
    let mut more = counts;
    more[usize::from(kind)] += 1;
    more
}

// The nets of one group, whose kinds stand in the table from place first up to end, two to a turn, since one to a turn copies the counts
// once more for each net.
fn count_group(counts: &mut [u16; 9], kinds: &[u8; 72], first: usize, end: usize)
    requires { (kinds.now ≡ group_kinds) × (first ≤ end) × (end ≤ 72) × NineCounts 8192 counts.old }
    ensures { counts.new ≡ raised_by counts.old (places group_kinds first end) }
{
    let pairs = (end - first) / 2;
    for pair in 0..pairs {
        let j = first + 2 * pair;
        let one = raise(*counts, kinds[j]);
        let two = raise(one, kinds[j + 1]);
        *counts = two;
    }
    let j = first + 2 * pairs;
    if j < end {
        let last = raise(*counts, kinds[j]);
        *counts = last;
    }
}

// The nets of each kind of the doubled netlist of an accepted image, group by group.
#[tactic(auto, using(doubled::proofs::Sums::accepted))]
pub fn count_kinds(image: &[u8], n: usize) -> [u16; 9]
    requires { (check_refusal image.now ≡ none) × (n ≡ (sizes_of image.now).nets) × (doubled_size (nets_of image.now) ≤ 8192) }
    ensures { result ≡ kind_counts (doubled_nets (nets_of image.now)) }
{
    let kinds = group_kinds();
    let lengths = group_lengths();
    let mut counts = [0u16; 9];
    for i in 0..n {
        let kind = usize::from(kind_of(image, i));
        let first = 8 * kind;
        let end = first + usize::from(lengths[kind]);
        count_group(&mut counts, &kinds, first, end);
    }
    counts
}
