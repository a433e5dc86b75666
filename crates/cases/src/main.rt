// Document 01's examples, executed. Standard input has the cases, in a language that its head explains; a line of output has the name of a case and what
// the library answers to it, and the file stdout has what the document says.
#![tactic(auto)]

mod answers;
mod calls;
mod lines;

use std::io::{Cursor, Read, copy};

// The most bytes that are read: as many as the buffer has, so that nothing is read behind a full one. A data file has fewer.
const MOST_TEXT: u64 = 65536;

fn main(rt: HostRuntime) {
    let mut text = io::large_buffer();
    let mut cursor = Cursor::new(&mut text[..]);
    let _ = copy(&mut rt.stdin().take(MOST_TEXT), &mut cursor);
    let n = cursor.position() as usize;
    if text.len() <= n {
        cases_text::say(&rt, b"the data file is too long\n");
        return;
    }
    lines::execute(&rt, &text[..n]);
}
