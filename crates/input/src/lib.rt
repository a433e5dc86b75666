// Reading an image and rows, which may come in pieces.
#![tactic(auto)]

mod reading;

pub use reading::{Filled, MOST_IMAGE, fill, keep_rest, read_image, read_more};
