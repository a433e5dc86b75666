// Lists of numbers, put into a buffer.
ghost use Rattle.io.specs.Counts.{IsPrefixLen};

use crate::numbers::{Numeral, number};
use crate::print::say;
use crate::words::place;

// One byte: the place behind it, or none where it does not fit.
fn put_byte(buffer: &mut [u8], at: usize, value: usize) -> Option<usize> {
    let byte = u8::try_from(value).ok()?;
    *buffer.get_mut(at)? = byte;
    Some(at + 1)
}

// A number as one byte, or as two with the low byte first.
fn put(buffer: &mut [u8], at: usize, value: usize, two: bool) -> Option<usize> {
    if two {
        let high = put_byte(buffer, at, value % 256)?;
        return put_byte(buffer, high, value / 256);
    }
    put_byte(buffer, at, value)
}

// A number, as many times as it is said.
fn put_times(buffer: &mut [u8], at: usize, n: Numeral, two: bool) -> Option<usize> {
    let mut place = at;
    for _ in 0..n.times {
        place = put(buffer, place, n.value, two)?;
    }
    Some(place)
}

// The numbers of the list at a place: the place behind the last one, or none where one does not fit. Each number says where the next one begins, so there is
// nothing for a `for` to go over.
fn put_list(t: &[u8], list: usize, two: bool, buffer: &mut [u8]) -> Option<usize> {
    let mut next = list;
    let mut at: usize = 0;
    let mut two = two;
    while let Some(n) = number(t, next) {
        two ^= n.bar;
        at = put_times(buffer, at, n, two)?;
        next = n.next;
    }
    Some(at)
}

// So many bytes at the start of a buffer; none where it has fewer, which is said.
pub fn within(rt: &impl Print, n: usize, buffer: &[u8]) -> usize
    ensures { IsPrefixLen result buffer.now }
{
    if n <= buffer.len() {
        return n;
    }
    say(rt, b" [a list or a number in it is too large]");
    0
}

// The list with this letter in the line at p: how many bytes it has. Numbers are one byte; those of an image are two, and behind each bar it is the other
// way round. A list that does not fit counts as longer than every buffer.
pub fn list(rt: &impl Print, t: &[u8], p: usize, letter: u8, buffer: &mut [u8]) -> usize
    ensures { IsPrefixLen result buffer.new }
{
    let list = place(rt, t, p, letter);
    let end = put_list(t, list, letter == b'i', buffer);
    within(rt, end.unwrap_or(usize::MAX), buffer)
}
