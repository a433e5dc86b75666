// The whole listing: power-up, and turns of reading and taking rows until the listing is closed.
ghost use Rattle.std.specs.Prelude.{◌≡◌, true, false, [], ◌≤◌, ◌<◌, length};
ghost use Rattle.std.proofs.Math.Option.{none};
ghost use Rattle.image.specs.Image.{sizes_of};
ghost use Rattle.checking.specs.Check.{check_refusal};
ghost use Rattle.cycle.specs.State.{state_length};
ghost use Rattle.cycle.specs.Calls.{power_up_of};
ghost use Rattle.listing_text.specs.Lines.{end_line};
ghost use Rattle.listing_output.specs.Printed.{printed, blank, with_last};
ghost use Rattle.listing_rows.specs.Taken.{held};
ghost use Rattle.listing_turns.specs.Reading.{Lists};
ghost use Rattle.listing.specs.Listing.{reads_none, listing_of, Listing};

use checking::check;
use cycle::state_length;
use gates::Kind;
use image::{Sizes, sizes_of};
use listing_cycles::Netlist;
use listing_output::{Progress, begun, print_end, print_refusal};
use listing_turns::take_turn;
use lists::list_nets;
use std::io::{Read, Write};
use tracker::power_up;

// A proved loop has to end, and nothing says that the input does. So the reads are counted, up to a number that no listing reaches, and the
// number of cycles stays below 2^64.
const MOST_READS: u64 = 140737488355328;

// The OUTs are listed, and the state powers up; then turns are made until the listing is closed. A listing that is still open after the most
// reads counts as failed. The image, its I and the list to fill are parameters of their own, since there is no `Netlist` before the list is
// filled, and so are the lent buffers, as in `take_rows`, whose contract may not change.
fn take_input<I: Read, W: Write>(
    rt: &impl Eprint,
    input: &mut I,
    output: &mut W,
    image: &[u8],
    inputs: usize,
    outs: &mut [u16],
    state: &mut [u8],
    outputs: &mut [u8],
    rows: &mut [u8],
    text: &mut [u8],
) -> Progress
    requires image_value { (check_refusal image.now ≡ none) × (inputs ≡ (sizes_of image.now).inputs) × (0 < inputs) }
    requires outs_len { (length outs.old ≡ (sizes_of image.now).outputs) × (length state.old ≡ state_length (sizes_of image.now)) × (8192 ≤ length outputs.old) }
    requires inputs_in_bounds { (inputs ≤ length rows.old) × (length rows.old ≤ 65536) × (8240 ≤ length text.old) }
    ensures { result.failed ≡ false → Lists image.now inputs
        (record { state = (power_up_of image.now state.entry.now).state; printed = blank text.old })
        (held state.exit.now text.new result) }
{
    list_nets(image, Kind::Out as u8, outs);
    let _ = power_up(image, state);
    let netlist = Netlist {
        image,
        inputs,
        outs,
    };
    let mut p = begun();
    let mut have = 0;
    for _read in 0..MOST_READS {
        if !p.open || p.failed {
            break;
        }
        let turn = take_turn(
            rt, input, output, netlist, state, outputs, rows, have, p, text,
        );
        p = turn.progress;
        have = turn.have;
    }
    Progress {
        failed: p.failed || p.open,
        ..p
    }
}

// The listing of an image that is accepted. The buffer for rows is as long as some whole rows.
fn list_accepted<I: Read, W: Write>(
    rt: &impl Eprint,
    input: &mut I,
    output: &mut W,
    image: &[u8],
    z: Sizes,
    text: &mut [u8; 65536],
) -> Progress
    requires { (check_refusal image.now ≡ none) × (z ≡ sizes_of image.now) }
    ensures result_after { z.inputs ≡ 0 → printed text.new result ≡ with_last (end_line 0) (blank text.old) }
    ensures listing { result.failed ≡ false → Listing image.now text.old (printed text.new result) }
{
    if z.inputs == 0 {
        return print_end(rt, output, text, begun());
    }
    let mut outs = [0u16; 8192];
    let mut state = [0u8; 8194];
    let mut outputs = [0u8; 65536];
    let mut rows = [0u8; 65536];
    let o = z.outputs;
    let st = state_length(z);
    let n = 65536 / z.inputs * z.inputs;
    take_input(
        rt,
        input,
        output,
        image,
        z.inputs,
        &mut outs[..o],
        &mut state[..st],
        &mut outputs,
        &mut rows[..n],
        text,
    )
}

// The listing of an image. The text is lent for the lines, until they are written out.
pub fn list<I: Read, W: Write>(
    rt: &impl Eprint,
    input: &mut I,
    output: &mut W,
    image: &[u8],
    text: &mut [u8; 65536],
) -> Progress
    ensures result_after { reads_none image.now ≡ true → printed text.new result ≡ listing_of image.now [] text.old }
    ensures listing { result.failed ≡ false → Listing image.now text.old (printed text.new result) }
{
    match check(image) {
        Ok(()) => list_accepted(rt, input, output, image, sizes_of(image), text),
        Err(r) => print_refusal(rt, output, text, begun(), r),
    }
}
