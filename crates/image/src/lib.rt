// The netlist image: a view of it, its readers, and its writers.
#![tactic(auto)]

mod image;
mod pins;
mod view;
mod writing;

pub use image::{Net, Sizes};
pub use pins::pin_net;
pub use view::{View, kind_of, net_of, operand_of, sizes_of};
pub use writing::{put_net, put_sizes, put_u16};
