// What is said on standard error of a read or a write that failed.
#![tactic(auto)]

ghost use Rattle.std.specs.Prelude.{◌≡◌, length, IsUtf8};
ghost use Rattle.failures.specs.Reasons.{IsReason};

use std::io::{Cursor, Error, Write};

// The room for the text of an error; what does not fit is left out.
const MOST_TEXT: usize = 256;

// The reason that the text of an error begins with. The number that the system has for it stands behind that, in brackets.
fn reason_of(text: &[u8]) -> &str
    ensures reason { IsUtf8 text.now → IsReason text.now result.now }
    ensures no_text { ¬ IsUtf8 text.now → length result.now ≡ 0 }
{
    let Ok(whole) = str::from_utf8(text) else {
        return "";
    };
    match whole.split_once(" (os error ") {
        Some((reason, _)) => reason,
        None => whole,
    }
}

// Says what failed, as the caller names it, and the system's reason, in a line.
pub fn say_failure(rt: &impl Eprint, what: &str, error: &Error) {
    let mut text = Cursor::new([0u8; MOST_TEXT]);
    let _ = write!(text, "{error}");
    let length = (text.position() as usize).min(MOST_TEXT);
    let bytes = text.into_inner();
    let reason = reason_of(&bytes[..length]);
    let _ = eprintln!(rt; "{what}: {reason}");
}
