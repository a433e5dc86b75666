// The listing program: it reads net.bin, powers up, takes a row of I bytes a cycle from standard input, and prints a line for each cycle.
#![tactic(auto)]

mod listing;

use input::{MOST_IMAGE, read_image};

fn main(rt: HostRuntime) {
    let mut space = [0u8; MOST_IMAGE];
    let n = read_image(&rt, &mut space);
    let mut text = [0u8; 65536];
    listing::list(
        &rt,
        &mut rt.stdin(),
        &mut rt.stdout(),
        &space[..n],
        &mut text,
    );
}
