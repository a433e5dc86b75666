// The pages program: it reads net.bin, powers up, takes a row of I bytes a cycle from standard input, and prints the outputs in pages of 64
// cycles.
#![tactic(auto)]

mod printing;

use input::{MOST_IMAGE, read_image};
use printing::MOST_TEXT;

fn main(rt: HostRuntime) {
    let mut space = [0u8; MOST_IMAGE];
    let n = read_image(&rt, &mut space);
    let mut text = [0u8; MOST_TEXT];
    printing::print(
        &rt,
        &mut rt.stdin(),
        &mut rt.stdout(),
        &space[..n],
        &mut text,
    );
}
