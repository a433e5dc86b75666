// Cycles of a run, and a line for each by its output bytes.
#![tactic(auto)]

mod cycles;
mod outs;

pub use cycles::print_cycles;
pub use outs::Netlist;
