// The static calls: power-up and a run on codes with unknown bits.
#![tactic(auto)]

mod refusing;
mod running;
mod starting;

pub use running::static_run;
pub use starting::static_power_up;
