// Parts of a line of standard output. A write that fails is passed over.

pub fn say(rt: &impl Print, s: &[u8]) {
    let _ = rt.write_all(s);
}

// A number, behind a text.
pub fn say_number(rt: &impl Print, name: &[u8], x: usize) {
    say(rt, name);
    let _ = rt.print(x);
}

// Bytes, each behind a blank.
pub fn say_each(rt: &impl Print, name: &[u8], s: &[u8]) {
    say(rt, name);
    for b in s {
        say_number(rt, b" ", usize::from(*b));
    }
}

// The bytes of s; of more than 64 only the first four and the last four.
pub fn say_bytes(rt: &impl Print, name: &[u8], s: &[u8]) {
    let n = s.len();
    if n <= 64 {
        say_each(rt, name, s);
    } else {
        say_each(rt, name, &s[..4]);
        say_each(rt, b" ..", &s[n - 4..]);
    }
}

// The text of some lines, with | for the end of each.
pub fn say_lines(rt: &impl Print, s: &[u8]) {
    for b in s {
        let shown = if *b == b'\n' { b'|' } else { *b };
        say(rt, &[shown]);
    }
}

// The text from one place to before another.
pub fn say_text(rt: &impl Print, t: &[u8], from: usize, end: usize) {
    if let Some(text) = t.get(from..end) {
        say(rt, text);
    }
}
