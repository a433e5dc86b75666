// The three kinds of lines. A line is put at a place of a lent buffer, and the answer is the place behind it; where the line does not fit,
// nothing is written and the answer is the place itself.
ghost use Rattle.std.specs.Prelude.{◌≡◌, ◌+◌, ◌≤◌, ◌<◌, length};
ghost use Rattle.std.specs.Fn.{FnOnceTakesAtMut, FnOnceReturnsAtMut};
ghost use Rattle.std.proofs.lemmas.List.Edits.{sets};
ghost use Rattle.cycle.specs.Answers.{verdict_in};
ghost use Rattle.text.specs.Put.{put, did};
ghost use Rattle.listing_text.specs.Lines.{cycle_line, end_line, refused_line};

use crate::pieces::{outputs_length, put_outputs, put_verdict, verdict_length};
use cycle::Verdict;
use refusals::Refusal;
use text::{digit_count, fits, put_number, put_numbered, put_text};

// Puts a line of so many bytes where they fit, and leaves the buffer as it is where they do not.
fn put_where_it_fits<F: FnOnce(&mut [u8]) -> usize>(
    buffer: &mut [u8],
    at: usize,
    bytes: usize,
    put_line: F,
) -> usize
    requires { at + bytes ≤ length buffer.old → FnOnceTakesAtMut F.FnOnce put_line buffer.old }
    ensures put_there { at + bytes ≤ length buffer.old → FnOnceReturnsAtMut F.FnOnce put_line buffer.old result buffer.new }
    ensures left { length buffer.old < at + bytes → (buffer.new ≡ buffer.old) × (result ≡ at) }
{
    if fits(buffer, at, bytes) {
        put_line(buffer)
    } else {
        at
    }
}

// The line of a cycle, where there is room for it.
fn put_cycle(buffer: &mut [u8], at: usize, cycle: u64, outputs: &[u8], verdict: Verdict) -> usize
    requires { at + length (cycle_line cycle outputs.now (verdict_in verdict)) ≤ length buffer.old }
    ensures buffer_after { buffer.new ≡ sets buffer.old at (cycle_line cycle outputs.now (verdict_in verdict)) }
    ensures value { result ≡ at + length (cycle_line cycle outputs.now (verdict_in verdict)) }
{
    let p = put_number(buffer, at, cycle);
    let q = put_text(buffer, p, b" ");
    let r = put_outputs(buffer, q, outputs);
    let s = put_text(buffer, r, b" ");
    let t = put_verdict(buffer, s, verdict);
    put_text(buffer, t, b"\n")
}

// The line of a cycle: its number, the O output bytes, and the verdict.
pub fn cycle_line(
    buffer: &mut [u8],
    at: usize,
    cycle: u64,
    outputs: &[u8],
    verdict: Verdict,
) -> usize
    ensures { did buffer.new result
        ≡ put buffer.old at (cycle_line cycle outputs.now (verdict_in verdict)) }
{
    let bytes = digit_count(cycle) + outputs_length(outputs) + verdict_length(verdict) + 3;
    put_where_it_fits(buffer, at, bytes, |buffer| {
        put_cycle(buffer, at, cycle, outputs, verdict)
    })
}

// The last line, where there is room for it.
fn put_end(buffer: &mut [u8], at: usize, cycles: u64) -> usize
    requires { at + length (end_line cycles) ≤ length buffer.old }
    ensures buffer_after { buffer.new ≡ sets buffer.old at (end_line cycles) }
    ensures value { result ≡ at + length (end_line cycles) }
{
    let p = put_numbered(buffer, at, b"end", cycles);
    put_text(buffer, p, b"\n")
}

// The last line: the word end, and the count of cycles.
pub fn end_line(buffer: &mut [u8], at: usize, cycles: u64) -> usize
    ensures { did buffer.new result ≡ put buffer.old at (end_line cycles) }
{
    let bytes = digit_count(cycles) + 5;
    put_where_it_fits(buffer, at, bytes, |buffer| put_end(buffer, at, cycles))
}

// The line of a refusal, where there is room for it.
fn put_refused(buffer: &mut [u8], at: usize, refusal: Refusal) -> usize
    requires { at + length (refused_line refusal) ≤ length buffer.old }
    ensures buffer_after { buffer.new ≡ sets buffer.old at (refused_line refusal) }
    ensures value { result ≡ at + length (refused_line refusal) }
{
    let p = put_numbered(buffer, at, b"refused", refusal.number as u64);
    let q = put_numbered(buffer, p, b"", refusal.place as u64);
    put_text(buffer, q, b"\n")
}

// The last line of a listing that turned back: the word refused, the number, and the place.
pub fn refused_line(buffer: &mut [u8], at: usize, refusal: Refusal) -> usize
    ensures { did buffer.new result ≡ put buffer.old at (refused_line refusal) }
{
    let bytes = digit_count(refusal.number as u64) + digit_count(refusal.place as u64) + 10;
    put_where_it_fits(buffer, at, bytes, |buffer| put_refused(buffer, at, refusal))
}
