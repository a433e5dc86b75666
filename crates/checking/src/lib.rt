// Checking an image: refusals 1 to 8.
#![tactic(auto)]

mod checking;

pub use checking::check;
