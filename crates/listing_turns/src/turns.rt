// One turn of a listing: a read of rows, and what is taken of it.
ghost use Rattle.std.specs.Prelude.{◌≡◌, true, false, ◌+◌, ◌≤◌, ◌<◌, ◌^◌, length, take, IfOk};
ghost use Rattle.row_runs.specs.Taking.{AcceptedState};
ghost use Rattle.listing_output.specs.Printed.{printed, with_last, Room, Grown};
ghost use Rattle.listing_rows.specs.Taken.{held, Leaves};
ghost use Rattle.listing_turns.specs.Reading.{last_line, Took, Turned};

use input::{keep_rest, read_more};
use listing_cycles::Netlist;
use listing_output::{Progress, print_end, print_refusal, write_out};
use listing_rows::take_rows;
use refusals::Condition;
use std::io;
use std::io::{Read, Write};

// One read of rows, behind the bytes of an unfinished row. It may wait for them, so all that is printed has to be written out before.
fn read_rows<I: Read>(
    rt: &impl Eprint,
    input: &mut I,
    rows: &mut [u8],
    have: usize,
    p: Progress,
) -> io::Result<usize>
    requires { (have < length rows.old) × (p.written ≡ p.used) }
    ensures bytes_in_bounds { IfOk result (λ bytes. have + bytes ≤ length rows.new) }
    ensures rows_unchanged { take have rows.new ≡ take have rows.old }
{
    read_more(rt, "standard input", input, rows, have)
}

// No byte more came: the last line. An unfinished row is a short last row, which draws 12.
fn take_end<W: Write>(
    rt: &impl Eprint,
    output: &mut W,
    text: &mut [u8],
    p: Progress,
    have: usize,
) -> Progress
    requires { Room text.old p }
    ensures result_after { printed text.new result ≡ with_last (last_line have p.cycles) (printed text.old p) }
    ensures grown { Grown text.new 0 p result × (result.written ≡ result.used) }
{
    if 0 < have {
        return print_refusal(rt, output, text, p, Condition::RowsLength.at(0));
    }
    print_end(rt, output, text, p)
}

// Takes what is there after a read: the whole rows, whose lines are written out at once, since the input may pause; or the end of the input.
// The output, the text and the progress are parameters of their own, as in `take_rows`, whose contract may not change.
fn take_read<W: Write>(
    rt: &impl Eprint,
    output: &mut W,
    netlist: Netlist,
    state: &mut [u8],
    outputs: &mut [u8],
    rows: &[u8],
    there: usize,
    got: usize,
    p: Progress,
    text: &mut [u8],
) -> Progress
    requires known { AcceptedState netlist.image.now state.old × (length netlist.outs.now ≤ length outputs.old) }
    requires room { Room text.old p × (p.open ≡ true) × (p.cycles + length rows.now < 2 ^ 64) }
    requires there_in_bounds { (there ≤ length rows.now) × (got ≡ 0 → there < netlist.inputs) }
    ensures took { result.failed ≡ false → Took netlist.entry.image.now netlist.entry.inputs (take there rows.now) got
        (held state.old text.old p) (held state.new text.new result) }
    ensures leaves { Leaves netlist.entry.image.now state.new text.new (length rows.now) p result
        × (result.failed ≡ false → result.written ≡ result.used) }
{
    if got == 0 {
        return take_end(rt, output, text, p, there);
    }
    let whole = there / netlist.inputs * netlist.inputs;
    let q = take_rows(
        rt,
        output,
        netlist.image,
        netlist.outs,
        netlist.inputs,
        state,
        &rows[..whole],
        outputs,
        p,
        text,
    );
    write_out(rt, output, text, q)
}

// What one turn leaves: the progress, and how many bytes of an unfinished row stand at the front of the buffer for rows.
#[derive(Clone, Copy, Debug, PartialEq, Eq)]
pub struct Turn {
    pub progress: Progress,
    pub have: usize,
}

// One turn: a read behind the bytes of an unfinished row, whose whole rows are taken. What is left is an unfinished row again. Where the read
// failed, the rest of the row may be missing, and there is no last line.
pub fn take_turn<I: Read, W: Write>(
    rt: &impl Eprint,
    input: &mut I,
    output: &mut W,
    netlist: Netlist,
    state: &mut [u8],
    outputs: &mut [u8],
    rows: &mut [u8],
    have: usize,
    p: Progress,
    text: &mut [u8],
) -> Turn
    requires known { AcceptedState netlist.image.now state.old × (length netlist.outs.now ≤ length outputs.old) }
    requires room { Room text.old p × (p.open ≡ true) × (p.written ≡ p.used) × (p.cycles + length rows.old < 2 ^ 64) }
    requires have_lt_inputs { (have < netlist.inputs) × (netlist.inputs ≤ length rows.old) }
    ensures turned { result.progress.failed ≡ false → Turned netlist.entry.image.now netlist.entry.inputs (take have rows.old) (take result.have rows.new)
        (held state.old text.old p) (held state.new text.new result.progress) }
    ensures leaves { Leaves netlist.entry.image.now state.new text.new (length rows.old) p result.progress
        × (result.progress.failed ≡ false → result.progress.written ≡ result.progress.used) × (result.have < netlist.entry.inputs) }
{
    let Ok(got) = read_rows(rt, input, rows, have, p) else {
        let progress = Progress { failed: true, ..p };
        return Turn { progress, have };
    };
    let there = have + got;
    let progress = take_read(
        rt, output, netlist, state, outputs, rows, there, got, p, text,
    );
    let rest = keep_rest(rows, netlist.inputs, there);
    Turn {
        progress,
        have: rest,
    }
}
