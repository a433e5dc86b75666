// The lines of the listing, each made in a lent buffer.
#![tactic(auto)]

mod lines;
mod pieces;

pub use lines::{cycle_line, end_line, refused_line};
