// The listing's own pieces of a line: outputs and verdicts. Each is put at a place of a lent buffer that has room for it, and answers the
// place behind it.
ghost use Rattle.std.specs.Prelude.{◌≡◌, map, ◌+◌, ◌≤◌, length};
ghost use Rattle.std.proofs.lemmas.List.Edits.{sets};
ghost use Rattle.cycle.specs.Answers.{verdict_in};
ghost use Rattle.listing_text.specs.Lines.{digit, output_digits, verdict_text};

use cycle::Verdict;
use text::{digit_count, put_numbered, put_text};

// How many bytes the digits of the outputs take.
pub fn outputs_length(outputs: &[u8]) -> usize
    ensures { result ≡ length (output_digits outputs.now) }
{
    outputs.len().max(1)
}

// The digit of each byte.
fn put_digits(buffer: &mut [u8], at: usize, bytes: &[u8]) -> usize
    requires { at + length bytes.now ≤ length buffer.old }
    ensures buffer_after { buffer.new ≡ sets buffer.old at (map digit bytes.now) }
    ensures value { result ≡ at + length bytes.now }
{
    for (i, byte) in bytes.iter().enumerate() {
        buffer[at + i] = b'0' + byte % 10;
    }
    at + bytes.len()
}

// A digit for each output byte, or - where there is no output.
pub fn put_outputs(buffer: &mut [u8], at: usize, outputs: &[u8]) -> usize
    requires { at + length (output_digits outputs.now) ≤ length buffer.old }
    ensures buffer_after { buffer.new ≡ sets buffer.old at (output_digits outputs.now) }
    ensures value { result ≡ at + length (output_digits outputs.now) }
{
    if outputs.is_empty() {
        put_text(buffer, at, b"-")
    } else {
        put_digits(buffer, at, outputs)
    }
}

// How many bytes a verdict takes.
pub fn verdict_length(v: Verdict) -> usize
    ensures { result ≡ length (verdict_text (verdict_in v)) }
{
    match v {
        Verdict::Clear => 5,
        Verdict::Flow(net) => 5 + digit_count(net as u64),
    }
}

// The word clear, or flow and the net.
pub fn put_verdict(buffer: &mut [u8], at: usize, v: Verdict) -> usize
    requires { at + length (verdict_text (verdict_in v)) ≤ length buffer.old }
    ensures buffer_after { buffer.new ≡ sets buffer.old at (verdict_text (verdict_in v)) }
    ensures value { result ≡ at + length (verdict_text (verdict_in v)) }
{
    match v {
        Verdict::Clear => put_text(buffer, at, b"clear"),
        Verdict::Flow(net) => put_numbered(buffer, at, b"flow", net as u64),
    }
}
