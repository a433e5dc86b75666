// The calls on a netlist: power-up, a step, and a run.
#![tactic(auto)]

mod refusing;
mod running;
mod starting;
mod stepping;

pub use refusing::lent_refusal_by;
pub use running::run;
pub use starting::power_up;
pub use stepping::step;
