// Refusals, and the tests of lent slices.
#![tactic(auto)]

mod answer;
mod lent;

pub use answer::{Condition, Refusal, refused};
pub use lent::{Bytes, byte_refusal, codes_refusal};
