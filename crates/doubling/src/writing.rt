// Writing the doubled netlist: its sizes, and then group after group in one pass over the nets.
// The buffer, its size, the image and its starts are parameters, since the contract of `write_image`, which may not change, names each.
ghost use Rattle.std.specs.Prelude.{◌≡◌, ◌+◌, ◌*◌, ◌<◌, ◌≤◌, length};
ghost use Rattle.std.proofs.Math.Option.{none};
ghost use Rattle.image.specs.Image.{sizes_of, kind_at, net_at, nets_of};
ghost use Rattle.image.specs.Writing.{put_nets};
ghost use Rattle.checking.specs.Check.{check_refusal};
ghost use Rattle.groups.specs.Groups.{group_length};
ghost use Rattle.large_groups.specs.Room.{Room};
ghost use Rattle.doubled.specs.Doubled.{group_at, doubled_size, value_net, doubled_nets};
ghost use Rattle.doubled.specs.Starts.{Starts};
ghost use Rattle.doubling.specs.Doubling.{doubled_image};

use crate::pins::pair_of;
use all_groups::put_group;
use image::{Sizes, net_of, put_sizes};

// The group of net i.
#[tactic(auto, using(doubled::proofs::Sums::accepted))]
fn put_group_at(d: &mut [u8], size: usize, image: &[u8], starts: &[u16; 8193], i: usize)
    requires image_value { check_refusal image.now ≡ none }
    requires i_bound { (i < (sizes_of image.now).nets) × Starts starts.now (nets_of image.now) × (doubled_size (nets_of image.now) ≤ 8192) }
    requires room { Room d.old size (value_net (nets_of image.now) i) (group_length (kind_at image.now i)) }
    ensures { d.new ≡ put_nets d.old size (value_net (nets_of image.now) i)
        (group_at (nets_of image.now) i (net_at image.now (sizes_of image.now).nets i)) }
{
    let v = usize::from(starts[i]);
    let x = net_of(image, i);
    put_group(
        d,
        size,
        v,
        x,
        pair_of(starts, x.a),
        pair_of(starts, x.b),
        pair_of(starts, x.c),
    );
}

// All groups.
#[tactic(auto, using(doubled::proofs::Sums::accepted))]
fn put_groups(d: &mut [u8], size: usize, image: &[u8], n: usize, starts: &[u16; 8193])
    requires image_value { check_refusal image.now ≡ none }
    requires n_value { (n ≡ (sizes_of image.now).nets) × Starts starts.now (nets_of image.now) }
    requires size_value { (size ≡ doubled_size (nets_of image.now)) × (size ≤ 8192) × (length d.old ≡ 8 + 7 * size) }
    ensures { d.new ≡ put_nets d.old size 0 (doubled_nets (nets_of image.now)) }
{
    for i in 0..n {
        put_group_at(d, size, image, starts, i);
    }
}

// The doubled image of an accepted image.
#[tactic(auto, using(doubled::proofs::Sums::accepted))]
pub fn write_image(d: &mut [u8], size: usize, image: &[u8], z: Sizes, starts: &[u16; 8193])
    requires image_value { check_refusal image.now ≡ none }
    requires z_value { (z ≡ sizes_of image.now) × Starts starts.now (nets_of image.now) }
    requires size_value { (size ≡ doubled_size (nets_of image.now)) × (size ≤ 8192) × (length d.old ≡ 8 + 7 * size) }
    ensures { d.new ≡ doubled_image image.now }
{
    put_sizes(
        d,
        Sizes {
            nets: size,
            inputs: 2 * z.inputs,
            registers: 2 * z.registers,
            outputs: 2 * z.outputs,
        },
    );
    put_groups(d, size, image, z.nets, starts);
}
