// The cycles of a run.
#![tactic(auto)]

mod running;

pub use running::cycles;
