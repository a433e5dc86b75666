// Nets and their inverses in one array, so that what a pin reads stands at the place that is the pin's own number.
#![tactic(auto)]

mod both;

pub use both::put_both;
