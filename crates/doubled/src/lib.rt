// What the doubled netlist is, and where its groups begin.
#![tactic(auto)]

mod lengths;

pub use lengths::{group_lengths, starts_of};
