// The tests of a lent slice: its length, and its bytes.
ghost use Rattle.std.specs.Prelude.{◌≡◌, ◌||◌, false, fold, position};
ghost use Rattle.refusals.specs.Refusals.{◌then◌, refusal_in, bad_above, bad_byte, bad_length};

use crate::answer::{Refusal, refused};

// The bytes that a call takes: the highest code, and the number that a bad byte draws in the rows. It is a number, since `lent_refusal_by` promises its
// refusals for every number.
#[derive(Clone, Copy, PartialEq, Eq, Debug)]
pub struct Bytes {
    pub top: u8,
    pub in_rows: u32,
}

// Whether a byte is no code, where `top` is the highest one: 5 is none, and none is above top.
fn is_bad(top: u8, x: u8) -> bool
    ensures { result ≡ bad_above top x }
{
    (x == 5) | (top < x)
}

// Whether any byte is bad. The pass does not end at a bad byte, so that the compiler may test many bytes at once.
fn any_bad(top: u8, s: &[u8]) -> bool
    ensures { result ≡ fold (λ bad x. bad || bad_above top x) false s.now }
{
    s.iter().fold(false, |bad, &x| bad | is_bad(top, x))
}

// The index of the first bad byte.
fn first_bad(top: u8, s: &[u8]) -> Option<usize>
    ensures { result ≡ position (bad_above top) s.now }
{
    if !any_bad(top, s) {
        return None;
    }
    s.iter().position(|&x| is_bad(top, x))
}

// The refusal of a lent slice: `number` at its first bad byte, where `top` is the highest code.
pub fn byte_refusal(number: u32, top: u8, s: &[u8]) -> Result<(), Refusal>
    ensures { refusal_in result ≡ bad_byte (bad_above top) number 0 s.now }
{
    match first_bad(top, s) {
        Some(i) => refused(number, i),
        None => Ok(()),
    }
}

// Two refusals of a lent slice: `number` where it is not n bytes long, and else `next` at its first bad byte, where `top` is the highest code.
#[tactic(auto, unfolding(crate::specs::Refusals::bad_length))]
pub fn codes_refusal(number: u32, next: u32, n: usize, top: u8, s: &[u8]) -> Result<(), Refusal>
    ensures { refusal_in result ≡ (bad_length number n s.now then bad_byte (bad_above top) next 0 s.now) }
{
    if s.len() != n {
        return refused(number, 0);
    }
    byte_refusal(next, top, s)
}
