// Rows of a listing, taken by runs on lent buffers, with a line for each.
#![tactic(auto)]

mod rows;

pub use rows::take_rows;
