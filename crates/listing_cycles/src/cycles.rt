// The lines of cycles, by their output bytes.
ghost use Rattle.std.specs.Prelude.{◌≡◌, ◌+◌, ◌*◌, ◌<◌, ◌^◌, length};
ghost use Rattle.listing_output.specs.Printed.{printed, with_cycle, Room, Grown};
ghost use Rattle.listing_cycles.specs.ByOutputs.{verdict_by, with_lines};

use crate::outs::Netlist;
use listing_output::{Progress, print_cycle};
use std::io::Write;

// The line of the next cycle, by its output bytes.
// The output, the text and the progress are parameters of their own, as in `take_rows`, whose contract may not change.
fn print_outputs<W: Write>(
    rt: &impl Eprint,
    output: &mut W,
    netlist: Netlist,
    outputs: &[u8],
    p: Progress,
    text: &mut [u8],
) -> Progress
    requires outs { length outputs.now ≡ length netlist.outs.now }
    requires room { Room text.old p × (p.cycles + 1 < 2 ^ 64) }
    ensures result_after { printed text.new result
        ≡ with_cycle outputs.now (verdict_by netlist.entry.image.now netlist.entry.outs.now outputs.now) (printed text.old p) }
    ensures grown { Grown text.new 1 p result }
{
    let verdict = netlist.verdict_by(outputs);
    print_cycle(rt, output, text, p, outputs, verdict)
}

// A line for each of k cycles, whose output bytes stand one after another.
pub fn print_cycles<W: Write>(
    rt: &impl Eprint,
    output: &mut W,
    netlist: Netlist,
    k: usize,
    outputs: &[u8],
    begin: Progress,
    text: &mut [u8],
) -> Progress
    requires outs { length outputs.now ≡ k * length netlist.outs.now }
    requires room { Room text.old begin × (begin.cycles + k < 2 ^ 64) }
    ensures result_after { printed text.new result
        ≡ with_lines netlist.entry.image.now netlist.entry.outs.now k outputs.now (printed text.old begin) }
    ensures grown { Grown text.new k begin result }
{
    let mut p = begin;
    for c in 0..k {
        let from = c * netlist.outs.len();
        let end = from + netlist.outs.len();
        p = print_outputs(rt, output, netlist, &outputs[from..end], p, text);
    }
    p
}
