// An answer as one number.
#![tactic(auto)]

mod codes;

pub use codes::{figure_code, kind_code, outcome_code, page_code, run_code, step_code};
