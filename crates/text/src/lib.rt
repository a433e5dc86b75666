// Texts in ASCII, and numbers in decimal, each put into a lent buffer.
// The buffer and the place in it are two parameters, since the contracts of `put_text`, `put_number` and `put_numbered` name both.
#![tactic(auto)]

mod digits;
mod texts;

pub use digits::{digit_count, put_number, put_numbered};
pub use texts::{fits, put_text};
