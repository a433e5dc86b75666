// What a run finds out once: the numbers of its INPUTs, its REGs and its OUTs, and of those OUTs that are protected, in lists; and its lowest gate.
ghost use Rattle.std.specs.Prelude.{◌≡◌, cond, ℕ, ◌+◌, ◌-◌, ◌<◌, ◌≤◌, length, take, drop};
ghost use Rattle.std.proofs.Math.Option.{none};
ghost use Rattle.gates.specs.Kinds.{INPUT, REG, NOT, OUT};
ghost use Rattle.image.specs.Image.{sizes_of, kind_at, nets_of, count};
ghost use Rattle.image.specs.Places.{places_from};
ghost use Rattle.checking.specs.Check.{check_refusal};
ghost use Rattle.lists.specs.Lists.{protected_of, Found, Watched};

use gates::Kind;
use image::{kind_of, operand_of, sizes_of};

// The numbers of all nets of a kind, in net order. The list is as long as there are such nets. A number is written before it is known
// whether the net is of the kind, and counted if it is: so there is no branch on the kind. A `for` over the nets is no plainer: the loop ends when the
// list is full, often long before the last net, and a `for` would test that beside its own end. The kind is a byte, since the contract is of every byte.
pub fn list_nets(image: &[u8], kind: u8, list: &mut [u16])
    requires image_value { check_refusal image.now ≡ none }
    requires list_len { length list.old ≡ count kind (nets_of image.now) }
    ensures { list.new ≡ places_from kind 0 (nets_of image.now) }
{
    let mut found = 0;
    let mut i: usize = 0;
    while found < list.len() {
        list[found] = i as u16;
        found += usize::from(kind_of(image, i) == kind);
        i += 1;
    }
}

// The lists of the INPUTs, of the REGs and of the OUTs, one after the other.
fn list_kinds(image: &[u8], regs: usize, outs: usize, end: usize, list: &mut [u16])
    requires image_value { check_refusal image.now ≡ none }
    requires regs_value { (regs ≡ (sizes_of image.now).inputs) × (outs ≡ regs + (sizes_of image.now).registers) × (end ≡ outs + (sizes_of image.now).outputs) }
    requires end_in_bounds { end ≤ length list.old }
    ensures inputs { take regs list.new ≡ places_from INPUT 0 (nets_of image.now) }
    ensures registers { take (outs - regs) (drop regs list.new) ≡ places_from REG 0 (nets_of image.now) }
    ensures outputs { take (end - outs) (drop outs list.new) ≡ places_from OUT 0 (nets_of image.now) }
{
    list_nets(image, Kind::Input as u8, &mut list[..regs]);
    list_nets(image, Kind::Reg as u8, &mut list[regs..outs]);
    list_nets(image, Kind::Out as u8, &mut list[outs..end]);
}

// Those of the listed OUTs that are protected, in order. The answer is how many they are.
fn list_protected(image: &[u8], outs: &[u16], list: &mut [u16]) -> usize
    requires image_value { (check_refusal image.now ≡ none) × (outs.now ≡ places_from OUT 0 (nets_of image.now)) }
    requires outs_in_bounds { length outs.now ≤ length list.old }
    ensures { (result ≤ length list.new) × (take result list.new ≡ protected_of image.now outs.now) }
{
    let mut found = 0;
    for &i in outs {
        list[found] = i;
        found += usize::from(operand_of(image, usize::from(i), 1) == 1);
    }
    found
}

// The lowest gate or OUT, or n where there is none.
fn lowest_gate(image: &[u8], n: usize) -> usize
    requires { 8 + n ≤ length image.now }
    ensures { (result ≤ n) × ((i : ℕ) → i < result → kind_at image.now i < NOT) }
{
    for i in 0..n {
        if Kind::Not as u8 <= kind_of(image, i) {
            return i;
        }
    }
    n
}

// What a run finds out once: the first net that may be a gate or OUT, where the lists of the REGs and of the OUTs begin and end, after that
// of the INPUTs, and how many OUTs are protected.
#[derive(Clone, Copy, PartialEq, Eq, Debug)]
pub struct Parts {
    pub from: usize,
    pub regs: usize,
    pub outs: usize,
    pub end: usize,
    pub watched: usize,
}

// The parts of an accepted image, with its lists.
pub fn find_parts(image: &[u8], list: &mut [u16], protected: &mut [u16]) -> Parts
    requires { (check_refusal image.now ≡ none) × (length list.old ≡ 8192) × (length protected.old ≡ 8192) }
    ensures { Found image.now result list.new × Watched image.now result protected.new }
{
    let z = sizes_of(image);
    let outs = z.inputs + z.registers;
    let end = outs + z.outputs;
    list_kinds(image, z.inputs, outs, end, list);
    let watched = list_protected(image, &list[outs..end], protected);
    Parts {
        from: lowest_gate(image, z.nets),
        regs: z.inputs,
        outs,
        end,
        watched,
    }
}
