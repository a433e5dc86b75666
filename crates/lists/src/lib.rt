// The lists of nets that a run makes once, and the parts of a cycle that go by them.
#![tactic(auto)]

mod listed;
mod lists;

pub use listed::{clock_listed, first_listed, put_bytes, take_bytes};
pub use lists::{Parts, find_parts, list_nets};
