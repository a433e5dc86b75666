// Turns of a listing, in which rows are read and taken.
#![tactic(auto)]

mod turns;

pub use turns::{Turn, take_turn};
