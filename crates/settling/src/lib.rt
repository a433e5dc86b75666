// The bytes of all gates and OUTs of a cycle, and before the first cycle those of the CONSTs.
#![tactic(auto)]

mod settling;

pub use settling::{set_constants, settle_nets};
