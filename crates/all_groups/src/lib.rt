// The group of any net.
#![tactic(auto)]

mod group;

pub use group::put_group;
