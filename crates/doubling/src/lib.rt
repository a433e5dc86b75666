// The doubled netlist, in which the tracking is ordinary gates.
#![tactic(auto)]

mod doubling;
mod pins;
mod writing;

pub use doubling::double;
