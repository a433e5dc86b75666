// The lines of the data file, executed one after the other.
use crate::calls::{Lent, call_named, image};
use cases_text::{byte_at, has_unknown_word, list, next, number, say, say_text, until};

// Makes the call at p on the lists behind it.
fn make_call(rt: &impl Print, t: &[u8], p: usize) {
    let mut space = io::large_buffer();
    let n = image(rt, t, p, &mut space);
    let mut state = io::buffer();
    let s = list(rt, t, p, b's', &mut state);
    let mut rows = io::large_buffer();
    let r = list(rt, t, p, b'r', &mut rows);
    let mut buffer = io::large_buffer();
    let b = list(rt, t, p, b'b', &mut buffer);
    let k = number(t, until(t, p, b' ')).map_or(0, |n| n.value);
    let mut lent = Lent {
        image: &space[..n],
        state: &mut state[..s],
        rows: &rows[..r],
        buffer: &mut buffer[..b],
    };
    call_named(rt, byte_at(t, p), k, &mut lent);
}

// The case of the line at p: its name, which stands in quotes, is printed, and the call behind it is made.
fn case(rt: &impl Print, t: &[u8], p: usize) {
    let name = next(t, until(t, p, b'"'));
    let end = until(t, name, b'"');
    say_text(rt, t, name, end);
    let call = next(t, next(t, end));
    make_call(rt, t, call);
    if has_unknown_word(t, call) {
        say(rt, b" [unknown word]");
    }
}

// The line from p to before `end`: a case; or a comment, or a list with a name, for which nothing is to be done. Where the next line begins with + the line
// of output goes on.
fn line(rt: &impl Print, t: &[u8], p: usize, end: usize) {
    match byte_at(t, p) {
        b'"' | b'+' => case(rt, t, p),
        b'#' | b'\n' | b'a'..=b'z' => return,
        _ => say(rt, b"[unknown line]"),
    }
    if byte_at(t, end) != b'+' {
        say(rt, b"\n");
    }
}

// All lines. Each says where the next one begins, so there is nothing for a `for` to go over.
pub fn execute(rt: &impl Print, t: &[u8]) {
    let mut p: usize = 0;
    while p < t.len() {
        let end = next(t, until(t, p, b'\n'));
        line(rt, t, p, end);
        p = end;
    }
}
