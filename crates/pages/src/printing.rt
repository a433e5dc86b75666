// All pages of an image and its input: power-up, and turns until the input ends or a row is refused.
ghost use Rattle.std.specs.Prelude.{◌≡◌, false, ◌+◌, ◌*◌, ◌≤◌, ◌<◌, length, take};
ghost use Rattle.std.proofs.Math.Option.{none};
ghost use Rattle.image.specs.Image.{sizes_of};
ghost use Rattle.checking.specs.Check.{check_refusal};
ghost use Rattle.cycle.specs.State.{state_length};
ghost use Rattle.listing_text.specs.Lines.{refused_line};
ghost use Rattle.pages.specs.Printed.{PagesPrinted};

use checking::check;
use cycle::state_length;
use gates::Kind;
use image::{Sizes, sizes_of};
use listing_text::refused_line;
use lists::list_nets;
use page_turns::{Progress, take_turn, write_text};
use refusals::Refusal;
use std::io::{Read, Write};
use tracker::power_up;

// The largest page has 8,193 lines of 71 bytes, and a refusal may follow it as one line more.
pub const MOST_TEXT: usize = 581774;

// A proved loop has to end, and nothing says that the input does. So the turns are counted, up to a number that no input reaches, and the
// number of cycles stays below 2^64.
const MOST_TURNS: u64 = 140737488355328;

// No turn is made, and none follows.
const NOT_BEGUN: Progress = Progress {
    cycles: 0,
    read: 0,
    used: 0,
    open: false,
    failed: false,
};

// The OUTs are listed, and the state powers up; then turns are made until none follows. Where one would follow the most turns, that counts
// as a failure. The netlist and the buffers are lent one by one, as take_turn takes them.
fn take_input<I: Read, W: Write>(
    rt: &impl Eprint,
    input: &mut I,
    output: &mut W,
    image: &[u8],
    inputs: usize,
    outs: &mut [u16],
    state: &mut [u8],
    outputs: &mut [u8],
    rows: &mut [u8],
    text: &mut [u8],
) -> Progress
    requires image_value { (check_refusal image.now ≡ none) × (inputs ≡ (sizes_of image.now).inputs) × (0 < inputs) }
    requires outs_len { (length outs.old ≡ (sizes_of image.now).outputs) × (length state.old ≡ state_length (sizes_of image.now)) × (64 * length outs.old ≤ length outputs.old) }
    requires rows_len { (length rows.old ≡ 64 * inputs) × ((2 + length outs.old) * 71 ≤ length text.old) }
    ensures { result.failed ≡ false → PagesPrinted image.now text.new result.used }
{
    list_nets(image, Kind::Out as u8, outs);
    let _ = power_up(image, state);
    let mut p = Progress {
        open: true,
        ..NOT_BEGUN
    };
    for _turn in 0..MOST_TURNS {
        if !p.open || p.failed {
            break;
        }
        p = take_turn(
            rt, input, output, image, outs, inputs, state, outputs, rows, p, text,
        );
    }
    Progress {
        failed: p.failed | p.open,
        ..p
    }
}

// The pages of an image that is accepted. Without inputs there is no row, and nothing is printed.
fn print_accepted<I: Read, W: Write>(
    rt: &impl Eprint,
    input: &mut I,
    output: &mut W,
    image: &[u8],
    z: Sizes,
    text: &mut [u8; MOST_TEXT],
) -> Progress
    requires { (check_refusal image.now ≡ none) × (z ≡ sizes_of image.now) }
    ensures { result.failed ≡ false → PagesPrinted image.now text.new result.used }
{
    if z.inputs == 0 {
        return NOT_BEGUN;
    }
    let mut outs = [0u16; 8192];
    let mut state = [0u8; 8194];
    let mut outputs = [0u8; 524288];
    let mut rows = [0u8; 524288];
    take_input(
        rt,
        input,
        output,
        image,
        z.inputs,
        &mut outs[..z.outputs],
        &mut state[..state_length(z)],
        &mut outputs,
        &mut rows[..64 * z.inputs],
        text,
    )
}

// The refusal of an image, which is all that is printed.
fn print_refused<W: Write>(
    rt: &impl Eprint,
    output: &mut W,
    text: &mut [u8; MOST_TEXT],
    refusal: Refusal,
) -> Progress
    ensures { take result.used text.new ≡ refused_line refusal }
{
    let used = refused_line(text, 0, refusal);
    let written = write_text(rt, output, &text[..used]);
    Progress {
        used,
        failed: written.is_err(),
        ..NOT_BEGUN
    }
}

// The pages of an image. The text is lent for what one turn prints, until it is written out.
pub fn print<I: Read, W: Write>(
    rt: &impl Eprint,
    input: &mut I,
    output: &mut W,
    image: &[u8],
    text: &mut [u8; MOST_TEXT],
) -> Progress
    ensures { result.failed ≡ false → PagesPrinted image.now text.new result.used }
{
    match check(image) {
        Ok(()) => print_accepted(rt, input, output, image, sizes_of(image), text),
        Err(r) => print_refused(rt, output, text, r),
    }
}
