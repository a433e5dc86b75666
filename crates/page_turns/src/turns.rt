// One turn: the bytes of 64 rows are read, and what they give is written out.
ghost use Rattle.std.specs.Prelude.{◌≡◌, false, ◌+◌, ◌*◌, ◌≤◌, ◌<◌, ◌^◌, length};
ghost use Rattle.page_turns.specs.Turns.{Asks, Turned};

use crate::putting::put_rows;
use failures::say_failure;
use input::fill;
use std::io::{self, Read, Write};

// The most rows of one turn: those of one page.
const ON_PAGE: usize = 64;

// How far the program has come: the number of cycles on its pages, how many bytes the last turn read, how many bytes of the text it printed,
// whether another turn follows, and whether a read or a write failed. The two flags stay: the contract of `take_turn` speaks of them.
#[derive(Clone, Copy, Debug, PartialEq, Eq)]
pub struct Progress {
    pub cycles: u64,
    pub read: usize,
    pub used: usize,
    pub open: bool,
    pub failed: bool,
}

// Writes out a text. That this failed is said on standard error.
pub fn write_text<W: Write>(rt: &impl Eprint, output: &mut W, text: &[u8]) -> io::Result<()> {
    output
        .write_all(text)
        .inspect_err(|error| say_failure(rt, "standard output", error))
}

// One turn. Where a read fails, nothing is printed: an unfinished page would look like the last one.
// The netlist and the buffers are lent one by one, as the contract of this call names them.
pub fn take_turn<I: Read, W: Write>(
    rt: &impl Eprint,
    input: &mut I,
    output: &mut W,
    image: &[u8],
    outs: &[u16],
    inputs: usize,
    state: &mut [u8],
    outputs: &mut [u8],
    rows: &mut [u8],
    p: Progress,
    text: &mut [u8],
) -> Progress
    requires { Asks image.now inputs outs.now state.old outputs.old text.old × (length rows.old ≡ 64 * inputs) × (p.cycles + 64 < 2 ^ 64) }
    ensures { result.failed ≡ false → Turned image.now inputs state.old state.new rows.new text.new p result }
{
    let got = fill(rt, "standard input", input, rows);
    if got.failed {
        return Progress {
            read: 0,
            used: 0,
            open: false,
            failed: true,
            ..p
        };
    }
    let read = got.bytes;
    let first = p.cycles;
    let did = put_rows(
        image,
        outs,
        inputs,
        state,
        outputs,
        &rows[..read],
        first,
        text,
    );
    let written = write_text(rt, output, &text[..did.used]);
    Progress {
        cycles: first + did.good as u64,
        read,
        used: did.used,
        open: did.good == ON_PAGE,
        failed: written.is_err(),
    }
}
