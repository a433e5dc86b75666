// How big the doubled netlist gets, before it is written.
#![tactic(auto)]

mod answer;
mod counting;
mod size;

pub use answer::DoubledSize;
pub use size::doubled_size;
