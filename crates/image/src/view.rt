// The view of an image: the caller's bytes and the four counts that they begin with. Nothing is copied. The functions here are thin: the bytes are read by
// functions of src/image.rt, which take the slice and numbers.
ghost use Rattle.std.specs.Prelude.{◌≡◌, ◌+◌, ◌*◌, ◌<◌, ◌≤◌, length};
ghost use Rattle.image.specs.Image.{sizes_of, kind_at, operand_at, net_at};
ghost use Rattle.image.specs.View.{counts_of};
ghost use Rattle.image.specs.Writing.{Fits};

use crate::image::{Net, Sizes, kind_at, operand_at, u16_at};

// The image, and N, I, R and O. The four stand here one by one and not as a `Sizes`, since the public contracts of `operand` (`self.nets`) and `of` (`counts_of`) read them so.
#[derive(Clone, Copy, PartialEq, Eq, Debug)]
pub struct View<'a> {
    pub image: &'a [u8],
    pub nets: usize,
    pub inputs: usize,
    pub registers: usize,
    pub outputs: usize,
}

impl<'a> View<'a> {
    // The view of an image that has its four sizes.
    #[tactic(auto, unfolding(crate::specs::Image::sizes_of))]
    pub fn of(image: &'a [u8]) -> View<'a>
        requires { 8 ≤ length image.now }
        ensures { (result.image ≡ image.entry) × (counts_of result ≡ sizes_of image.now) }
    {
        View {
            image,
            nets: u16_at(image, 0),
            inputs: u16_at(image, 2),
            registers: u16_at(image, 4),
            outputs: u16_at(image, 6),
        }
    }

    // Its counts.
    pub fn sizes(self) -> Sizes
        ensures { result ≡ counts_of self.entry }
    {
        Sizes {
            nets: self.nets,
            inputs: self.inputs,
            registers: self.registers,
            outputs: self.outputs,
        }
    }

    // The kind of net i.
    pub fn kind(self, i: usize) -> u8
        requires { 8 + i < length self.image.now }
        ensures { result ≡ kind_at self.entry.image.now i }
    {
        kind_at(self.image, i)
    }

    // Operand k of net i: a is 0, b is 1, c is 2.
    pub fn operand(self, i: usize, k: usize) -> usize
        requires { (i < self.nets) × (k < 3) × (length self.image.now ≡ 8 + 7 * self.nets) }
        ensures { (result ≡ operand_at self.entry.image.now self.entry.nets i k) × (result < 65536) }
    {
        operand_at(self.image, self.nets, i, k)
    }
}

// The same of a slice, for callers that hold no view. The first three make a view and read through it, and `net_of` calls them.

// N, I, R and O of an image.
pub fn sizes_of(image: &[u8]) -> Sizes
    requires { 8 ≤ length image.now }
    ensures { result ≡ sizes_of image.now }
{
    View::of(image).sizes()
}

// The kind of net i of an image.
pub fn kind_of(image: &[u8], i: usize) -> u8
    requires { 8 + i < length image.now }
    ensures { result ≡ kind_at image.now i }
{
    View::of(image).kind(i)
}

// Operand k of net i of an image.
pub fn operand_of(image: &[u8], i: usize, k: usize) -> usize
    requires { (i < (sizes_of image.now).nets) × (k < 3) × (length image.now ≡ 8 + 7 * (sizes_of image.now).nets) }
    ensures { (result ≡ operand_at image.now (sizes_of image.now).nets i k) × (result < 65536) }
{
    View::of(image).operand(i, k)
}

// Net i of an image.
#[tactic(auto, unfolding(crate::specs::Image::net_at))]
pub fn net_of(image: &[u8], i: usize) -> Net
    requires { (i < (sizes_of image.now).nets) × (length image.now ≡ 8 + 7 * (sizes_of image.now).nets) }
    ensures { (result ≡ net_at image.now (sizes_of image.now).nets i) × Fits result }
{
    Net {
        kind: kind_of(image, i),
        a: operand_of(image, i, 0),
        b: operand_of(image, i, 1),
        c: operand_of(image, i, 2),
    }
}
