// Numbers in decimal. Each is put at a place of a lent buffer that has room for it, and the answer is the place behind it.
ghost use Rattle.std.specs.Prelude.{◌≡◌, ◌+◌, ◌≤◌, length, take};
ghost use Rattle.std.proofs.lemmas.List.Edits.{sets};
ghost use Rattle.text.specs.Decimal.{decimal, numbered};
ghost use Rattle.io.specs.Counts.{IsPrefixLen};

use crate::texts::put_text;

// The decimal digits of a number, at the start of an array; the answer is how many there are.
fn digits_of(n: u64, digits: &mut [u8; 20]) -> usize
    ensures prefix_len { IsPrefixLen result digits.new }
    ensures digits_after { take result digits.new ≡ decimal n }
{
    io::decimal(n, digits)
}

// How many digits a number has.
pub fn digit_count(n: u64) -> usize
    ensures { result ≡ length (decimal n) }
{
    let mut digits = [0u8; 20];
    digits_of(n, &mut digits)
}

// A number in decimal.
pub fn put_number(buffer: &mut [u8], at: usize, n: u64) -> usize
    requires { at + length (decimal n) ≤ length buffer.old }
    ensures buffer_after { buffer.new ≡ sets buffer.old at (decimal n) }
    ensures value { result ≡ at + length (decimal n) }
{
    let mut digits = [0u8; 20];
    let k = digits_of(n, &mut digits);
    put_text(buffer, at, &digits[..k])
}

// A word and a number, one space between.
pub fn put_numbered(buffer: &mut [u8], at: usize, word: &[u8], n: u64) -> usize
    requires { at + length (numbered word.now n) ≤ length buffer.old }
    ensures buffer_after { buffer.new ≡ sets buffer.old at (numbered word.now n) }
    ensures value { result ≡ at + length (numbered word.now n) }
{
    let p = put_text(buffer, at, word);
    let q = put_text(buffer, p, b" ");
    put_number(buffer, q, n)
}
