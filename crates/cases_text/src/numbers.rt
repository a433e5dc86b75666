// Numbers in decimal.
ghost use Rattle.std.specs.Prelude.{◌<◌, ◌≤◌, length, IfSome};

use crate::places::behind;

// A number of a list: how many times it is said, whether one bar stands before it (or three, ..), and the place behind it.
#[derive(Clone, Copy, Debug, PartialEq, Eq)]
pub struct Numeral {
    pub value: usize,
    pub times: usize,
    pub bar: bool,
    pub next: usize,
}

// A number with a digit more. From 18446744073709551610 on every number counts as the largest that there is.
fn with_digit(value: usize, digit: u8) -> usize {
    if usize::MAX / 10 <= value {
        return usize::MAX;
    }
    value * 10 + usize::from(digit % 16)
}

// The number at a place, behind blanks and bars, or none where there is no digit: 7 is 7, and 3*7 is 7, three times.
pub fn number(t: &[u8], p: usize) -> Option<Numeral>
    ensures { IfSome result (λ n. (p < n.next) × (n.next ≤ length t.now)) }
{
    let mut n = Numeral {
        value: 0,
        times: 1,
        bar: false,
        next: p,
    };
    let mut found = false;
    for (i, b) in behind(t, p).iter().enumerate() {
        match b {
            b'0'..=b'9' => {
                n.value = with_digit(n.value, *b);
                found = true;
            }
            b'*' => {
                n.times = n.value;
                n.value = 0;
            }
            b' ' | b'|' if !found => n.bar ^= *b == b'|',
            _ => break,
        }
        n.next = p + i + 1;
    }
    found.then_some(n)
}
