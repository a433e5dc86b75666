// One turn of the pages program.
#![tactic(auto)]

mod putting;
mod turns;

pub use turns::{Progress, take_turn, write_text};
