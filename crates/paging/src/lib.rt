// The call that writes the pages of a run's outputs.
#![tactic(auto)]

mod paging;
mod refusing;

pub use paging::page;
