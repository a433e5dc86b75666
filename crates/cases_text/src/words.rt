// Words, which are known by their first letter.
use crate::places::{behind, byte_at, next, part, until};
use crate::print::say;

// The place behind the first word from p to before `end` that has this letter and stands behind this mark. With no such word it is the end of the text.
fn find(t: &[u8], p: usize, end: usize, mark: u8, letter: u8) -> usize {
    let words = part(t, p, end);
    let mark_place = words
        .windows(2)
        .position(|w| w == [mark, letter].as_slice());
    match mark_place {
        Some(i) => until(t, p + i + 1, b' '),
        None => t.len(),
    }
}

// The place of the list with this letter in the line at p: behind its word; or, where @ and a name stand behind the word, behind this name at the start of
// a line. With no such word there is no list, and its place is the end of the text.
pub fn place(rt: &impl Print, t: &[u8], p: usize, letter: u8) -> usize {
    let q = find(t, p, until(t, p, b'\n'), b' ', letter);
    let name = next(t, q);
    if byte_at(t, name) != b'@' {
        return q;
    }
    let list = find(t, 0, t.len(), b'\n', byte_at(t, next(t, name)));
    if list == t.len() {
        say(rt, b" [no list has this name]");
    }
    list
}

// Whether a line has anything but numbers, names and the words image, doubled, state, rows and buffer behind the word at p.
pub fn has_unknown_word(t: &[u8], p: usize) -> bool {
    let mut word = true;
    for b in behind(t, p) {
        match b {
            b'\n' => return false,
            b' ' => word = false,
            b'0'..=b'9' | b'*' | b'|' => {}
            b'i' | b'd' | b's' | b'r' | b'b' | b'@' => word = true,
            _ if !word => return true,
            _ => {}
        }
    }
    false
}
