// The text of a file of cases: what stands at a place of it, the lists that it gives, and the parts of a line that are printed.
#![tactic(auto)]

mod filling;
mod images;
mod numbers;
mod places;
mod print;
mod words;

pub use filling::{list, within};
pub use images::{say_image, say_whether_changed};
pub use numbers::{Numeral, number};
pub use places::{byte_at, next, until};
pub use print::{say, say_bytes, say_lines, say_number, say_text};
pub use words::has_unknown_word;
