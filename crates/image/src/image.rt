// What stands in an image: the four sizes, then a kind byte for each net, then three operands for each net.
ghost use Rattle.std.specs.Prelude.{◌≡◌, ◌+◌, ◌*◌, ◌<◌, length};
ghost use Rattle.image.specs.Image.{u16_at, kind_at, operand_at};

// N, I, R and O.
#[derive(Clone, Copy, PartialEq, Eq, Debug)]
pub struct Sizes {
    pub nets: usize,
    pub inputs: usize,
    pub registers: usize,
    pub outputs: usize,
}

// A net as it stands in the image: its kind and its operands.
#[derive(Clone, Copy, PartialEq, Eq, Debug)]
pub struct Net {
    pub kind: u8,
    pub a: usize,
    pub b: usize,
    pub c: usize,
}

// The u16 whose low byte stands at p.
pub fn u16_at(s: &[u8], p: usize) -> usize
    requires { p + 1 < length s.now }
    ensures { (result ≡ u16_at s.now p) × (result < 65536) }
{
    usize::from(u16::from_le_bytes([s[p], s[p + 1]]))
}

// The kind of net i.
pub fn kind_at(s: &[u8], i: usize) -> u8
    requires { 8 + i < length s.now }
    ensures { result ≡ kind_at s.now i }
{
    s[8 + i]
}

// Operand k of net i in an image of n nets: a is 0, b is 1, c is 2.
pub fn operand_at(s: &[u8], n: usize, i: usize, k: usize) -> usize
    requires { (i < n) × (k < 3) × (length s.now ≡ 8 + 7 * n) }
    ensures { (result ≡ operand_at s.now n i k) × (result < 65536) }
{
    u16_at(s, 8 + n + 6 * i + 2 * k)
}
