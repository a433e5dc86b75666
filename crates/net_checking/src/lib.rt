// The tests of one net: refusals 4 to 7.
#![tactic(auto)]

mod limits;
mod net;

pub use limits::limit_places;
pub use net::check_net;
