// What clock cycles are, and what the calls on them answer. What works them out stands in the crates that use this one.
#![tactic(auto)]

mod answer;
mod state;

pub use answer::{FirstFlow, Verdict};
pub use state::{count_marked, state_length, wrong_count};
