// The groups of AND, OR and MUX, whose marks need inner nets.
#![tactic(auto)]

mod group;
mod pair;

pub use group::{gate, put_and, put_mux, put_or, put_two};
pub use pair::Pair;
