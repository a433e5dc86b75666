// The parts of a cycle, net by net: the bytes of all nets, the verdict and the clock; and the starts of power-up.
// The image and its number of nets stay two parameters, since the public contracts of `work_out`, `verdict_of`, `take_starts` and `clock` have them so.
#![tactic(auto)]

mod nets;
mod pins;
mod registers;
mod verdict;

pub use nets::work_out;
pub use registers::{clock, take_starts};
pub use verdict::verdict_of;
