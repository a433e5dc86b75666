// Whole rows taken by one run, up to the first that has a bad byte.
#![tactic(auto)]

mod running;

pub use running::{RowsRun, run_rows};
