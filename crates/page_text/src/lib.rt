// The pages of a run's outputs, put into a lent buffer.
#![tactic(auto)]

mod columns;
mod lines;
mod pages;
mod pieces;

pub use pages::{put_page, put_pages};
