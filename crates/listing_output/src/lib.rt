// The output of the listing: lines gathered in a text, which is written out.
// The output, the text and the progress are parameters of their own, since the contract of `take_rows` of `listing_rows`, which may not
// change, names them one by one.
#![tactic(auto)]

mod output;

pub use output::{Progress, begun, print_cycle, print_end, print_refusal, write_out};
