// Rows that are taken by runs: one run for many rows, and a line for each of its cycles.
ghost use Rattle.std.specs.Prelude.{◌≡◌, false, ◌+◌, ◌*◌, ◌≤◌, ◌<◌, ◌^◌, length};
ghost use Rattle.row_runs.specs.Taking.{AcceptedState};
ghost use Rattle.listing_output.specs.Printed.{Room};
ghost use Rattle.listing_cycles.specs.ByOutputs.{Known};
ghost use Rattle.listing_rows.specs.Rows.{rows_of};
ghost use Rattle.listing_rows.specs.Taken.{held, Whole, Taken, Asks, Leaves};

use listing_cycles::{Netlist, print_cycles};
use listing_output::{Progress, print_refusal};
use row_runs::run_rows;
use std::io::Write;

// The most cycles of one run.
const MOST_CYCLES: usize = 4096;

// The most rows that one run takes: 4,096, and no more than the buffer for output bytes has room for.
fn most_rows(outputs: usize, bytes: usize) -> usize
    requires { outputs ≤ bytes }
    ensures { (0 < result) × (result ≤ 4096) × (result * outputs ≤ bytes) }
{
    if outputs == 0 {
        return MOST_CYCLES;
    }
    MOST_CYCLES.min(bytes / outputs)
}

// At most 4,096 rows: one run, and a line for each of its cycles. Where a row has a bad byte, the rows before it are run, and its refusal is
// the last line.
fn take_many<W: Write>(
    rt: &impl Eprint,
    output: &mut W,
    netlist: Netlist,
    k: usize,
    state: &mut [u8],
    rows: &[u8],
    outputs: &mut [u8],
    p: Progress,
    text: &mut [u8],
) -> Progress
    requires { Asks netlist.image.now netlist.inputs k netlist.outs.now state.old rows.now outputs.old text.old p }
    ensures taken { Taken netlist.entry.image.now netlist.entry.inputs (rows_of netlist.entry.inputs rows.now)
        (held state.old text.old p) (held state.new text.new result) }
    ensures leaves { Leaves netlist.entry.image.now state.new text.new k p result }
{
    let each = netlist.outs.len();
    let ran = run_rows(netlist.image, netlist.inputs, each, k, state, rows, outputs);
    let good = ran.good;
    let filled = good * each;
    let q = print_cycles(rt, output, netlist, good, &outputs[..filled], p, text);
    match ran.outcome {
        Ok(()) => q,
        Err(r) => print_refusal(rt, output, text, q, r),
    }
}

// Whole rows, by as few runs as their number and the buffer for output bytes allow. No row follows a last line or a write that failed.
// The image, its OUTs and its I are parameters of their own, and so are the lent buffers, since this contract, which may not change, names
// them one by one.
pub fn take_rows<W: Write>(
    rt: &impl Eprint,
    output: &mut W,
    image: &[u8],
    outs: &[u16],
    inputs: usize,
    state: &mut [u8],
    rows: &[u8],
    outputs: &mut [u8],
    begin: Progress,
    text: &mut [u8],
) -> Progress
    requires known { Known image.now inputs outs.now × AcceptedState image.now state.old × Whole inputs rows.now }
    requires outs_in_bounds { (length outs.now ≤ length outputs.old) × Room text.old begin × (begin.cycles + length rows.now < 2 ^ 64) }
    ensures taken { result.failed ≡ false → Taken image.now inputs (rows_of inputs rows.now)
        (held state.old text.old begin) (held state.new text.new result) }
    ensures leaves { Leaves image.now state.new text.new (length rows.now) begin result }
{
    let most = most_rows(outs.len(), outputs.len());
    let netlist = Netlist {
        image,
        inputs,
        outs,
    };
    let mut p = begin;
    for piece in rows.chunks(most * inputs) {
        if !p.open || p.failed {
            return p;
        }
        let k = piece.len() / inputs;
        let filled = k * outs.len();
        p = take_many(
            rt,
            output,
            netlist,
            k,
            state,
            piece,
            &mut outputs[..filled],
            p,
            text,
        );
    }
    p
}
