// What is printed of a buffer that an image may have been written to.
use crate::places::part;
use crate::print::{say, say_each};

// The sizes of an image of 8 + 7 × N bytes, and the kinds and the operands of its nets from net `from` on, a number below 8,192: a line with the six bytes of
// each net.
pub fn say_image(rt: &impl Print, d: &[u8], from: usize) {
    let first = from % 8192;
    let operands = d.len() / 7 + 7;
    say_each(rt, b", sizes", part(d, 0, 8));
    say_each(rt, b", kinds", part(d, 8 + first, operands));
    for net in part(d, operands + 6 * first, d.len()).chunks(6) {
        say_each(rt, b"\n ", net);
    }
}

// Whether a buffer of bytes 9 stayed as it was.
pub fn say_whether_changed(rt: &impl Print, d: &[u8]) {
    if d.iter().any(|b| *b != 9) {
        say(rt, b", buffer changed");
    } else {
        say(rt, b", buffer as it was");
    }
}
