// Writing: lines are gathered in a text, which is written out when it has no room for another line, and when the input pauses.
ghost use Rattle.std.specs.Prelude.{◌≡◌, ℕ, List, true, false, ◌+◌, ◌-◌, ◌≤◌, ◌<◌, ◌^◌, length};
ghost use Rattle.cycle.specs.Answers.{verdict_in};
ghost use Rattle.listing_text.specs.Lines.{end_line, refused_line};
ghost use Rattle.listing_output.specs.Printed.{printed, next_place, with_cycle, with_last, Room, Puts};

use cycle::Verdict;
use failures::say_failure;
use listing_text::{cycle_line, end_line, refused_line};
use refusals::Refusal;
use std::io::Write;

// The longest line: a cycle of 20 digits, 8,192 outputs, a flow at a net of 20 digits, the spaces and the end of the line.
const LONGEST: usize = 8240;

// How far the listing has come: the number of cycles that are printed, how many bytes of the text are lines, how many of these are written
// out, whether the listing is open, that is, its last line is not printed yet, and whether a read or a write failed: no line follows then
// either. The two flags stay: `begun`, `print_cycle` and `print_end` speak of them.
#[derive(Clone, Copy, Debug, PartialEq, Eq)]
pub struct Progress {
    pub cycles: u64,
    pub used: usize,
    pub written: usize,
    pub open: bool,
    pub failed: bool,
}

// Nothing is printed yet.
pub fn begun() -> Progress
    ensures { (result.cycles ≡ 0) × (result.used ≡ 0) × (result.written ≡ 0) × (result.open ≡ true) × (result.failed ≡ false) }
{
    Progress {
        cycles: 0,
        used: 0,
        written: 0,
        open: true,
        failed: false,
    }
}

// Writes out the lines that are not written out yet, unless a write failed before. The next line goes behind them all the same.
pub fn write_out<W: Write>(rt: &impl Eprint, output: &mut W, text: &[u8], p: Progress) -> Progress
    requires { (p.written ≤ p.used) × (p.used ≤ length text.now) }
    ensures result_value { (printed text.now result ≡ printed text.now p) × (result.written ≡ result.used) }
    ensures failed_value { p.failed ≡ true → result.failed ≡ true }
{
    let failed = p.failed
        || output
            .write_all(&text[p.written..p.used])
            .inspect_err(|error| say_failure(rt, "standard output", error))
            .is_err();
    Progress {
        written: p.used,
        failed,
        ..p
    }
}

// Writes out the text, so that the next line goes to its start.
fn empty<W: Write>(rt: &impl Eprint, output: &mut W, text: &[u8], p: Progress) -> Progress
    requires { (p.written ≤ p.used) × (p.used ≤ length text.now) }
    ensures used_value { (result.used ≡ 0) × (result.written ≡ 0) × (result.cycles ≡ p.cycles) × (result.open ≡ p.open) }
    ensures failed_value { p.failed ≡ true → result.failed ≡ true }
{
    Progress {
        used: 0,
        written: 0,
        ..write_out(rt, output, text, p)
    }
}

// Writes out the text where the next line might not fit behind its lines.
#[tactic(auto, unfolding(crate::specs::Printed::next_place))]
fn make_room<W: Write>(rt: &impl Eprint, output: &mut W, text: &[u8], p: Progress) -> Progress
    requires { (p.written ≤ p.used) × (p.used ≤ length text.now) }
    ensures used_value { (result.used ≡ next_place (length text.now) p.used) × (result.written ≤ result.used) × (result.cycles ≡ p.cycles) × (result.open ≡ p.open) }
    ensures failed_value { (8240 ≤ length text.now - p.used → result.failed ≡ p.failed) × (p.failed ≡ true → result.failed ≡ true) }
{
    if text.len() - p.used < LONGEST {
        empty(rt, output, text, p)
    } else {
        p
    }
}

// The line of the next cycle, behind those that are there.
pub fn print_cycle<W: Write>(
    rt: &impl Eprint,
    output: &mut W,
    text: &mut [u8],
    p: Progress,
    outputs: &[u8],
    verdict: Verdict,
) -> Progress
    requires { Room text.old p × (length outputs.now ≤ 8192) × (p.cycles + 1 < 2 ^ 64) }
    ensures result_after { printed text.new result ≡ with_cycle outputs.now (verdict_in verdict) (printed text.old p) }
    ensures failed_value { (8240 ≤ length text.old - p.used → result.failed ≡ p.failed) × (p.failed ≡ true → result.failed ≡ true) }
    ensures room { Room text.new result }
{
    let q = make_room(rt, output, text, p);
    let used = cycle_line(text, q.used, q.cycles, outputs, verdict);
    Progress {
        cycles: q.cycles + 1,
        used,
        ..q
    }
}

// A last line, which `put_line` puts into a text at a place. It is written out with what is before it, and the listing is closed then.
fn print_last<W: Write, F: FnOnce(&mut [u8], usize) -> usize>(
    rt: &impl Eprint,
    output: &mut W,
    text: &mut [u8],
    p: Progress,
    put_line: F,
) -> Progress
    requires room { Room text.old p }
    requires callable { F.IsAlwaysCallable put_line }
    requires puts { (line : List ℕ) × Puts F.FnOnce put_line line }
    ensures result_after { (line : List ℕ) → Puts F.FnOnce put_line line → printed text.new result ≡ with_last line (printed text.old p) }
    ensures failed_value { (p.failed ≡ true → result.failed ≡ true) × (result.written ≡ 0) }
{
    let q = make_room(rt, output, text, p);
    let used = put_line(text, q.used);
    let last = Progress {
        used,
        open: false,
        ..q
    };
    empty(rt, output, text, last)
}

// The last line, with the number of cycles.
pub fn print_end<W: Write>(
    rt: &impl Eprint,
    output: &mut W,
    text: &mut [u8],
    p: Progress,
) -> Progress
    requires { Room text.old p }
    ensures result_after { printed text.new result ≡ with_last (end_line p.cycles) (printed text.old p) }
    ensures failed_value { (p.failed ≡ true → result.failed ≡ true) × (result.written ≡ 0) }
{
    print_last(rt, output, text, p, |text, at| end_line(text, at, p.cycles))
}

// The last line of a listing that turned back.
pub fn print_refusal<W: Write>(
    rt: &impl Eprint,
    output: &mut W,
    text: &mut [u8],
    p: Progress,
    refusal: Refusal,
) -> Progress
    requires { Room text.old p }
    ensures result_after { printed text.new result ≡ with_last (refused_line refusal) (printed text.old p) }
    ensures failed_value { (p.failed ≡ true → result.failed ≡ true) × (result.written ≡ 0) }
{
    print_last(
        rt,
        output,
        text,
        p,
        |text, at| refused_line(text, at, refusal),
    )
}
