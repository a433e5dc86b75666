// Unknown bits: the codes of gates with unknown pins, read from constant tables, and one table of them all for a run.
#![tactic(auto)]

mod reading;
mod tables;
mod widening;

pub use reading::{code_by, inverse};
pub use tables::{mux_codes, pair_codes};
pub use widening::{static_byte, wide_table_for};
