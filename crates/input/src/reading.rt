// Reading: an image from its file, and bytes behind others, of which an unfinished row is kept. Both may come in pieces.
ghost use Rattle.std.specs.Prelude.{◌≡◌, true, ◌+◌, ◌%◌, ◌≤◌, ◌<◌, length, take, IfOk};
ghost use Rattle.input.specs.Rest.{rest_of};
ghost use Rattle.io.specs.Counts.{IsPrefixLen};

use failures::say_failure;
use std::io::Read;
use std::rt::Files;
use std::{fs, io};

// The largest image has 8 + 7 × 8,192 bytes. One byte more is read, so that a longer file is not taken for an image.
pub const MOST_IMAGE: usize = 57353;

// The file that has the image.
const IMAGE: &str = "net.bin";

// How many bytes were read into a buffer, and whether a read failed after them. Both count, and a `Result` would lose the bytes before a
// failure.
#[derive(Clone, Copy, Debug, PartialEq, Eq)]
pub struct Filled {
    pub bytes: usize,
    pub failed: bool,
}

// One read behind the bytes that are there, which stay: how many more came. There is room for one at least, so none is the end of the input.
// The reason of a read that failed is also said on standard error under the input's name.
pub fn read_more<R: Read>(
    rt: &impl Eprint,
    name: &str,
    input: &mut R,
    buffer: &mut [u8],
    from: usize,
) -> io::Result<usize>
    requires { from < length buffer.old }
    ensures bytes_in_bounds { IfOk result (λ bytes. from + bytes ≤ length buffer.new) }
    ensures buffer_unchanged { take from buffer.new ≡ take from buffer.old }
{
    input
        .read(&mut buffer[from..])
        .inspect_err(|error| say_failure(rt, name, error))
}

// Reads until the buffer is full, the input ends or a read fails, which it does only where bytes are missing, and which is said on standard
// error under the input's name. How many turns that takes the reads decide, so there is nothing for a `for` to go over.
pub fn fill<R: Read>(rt: &impl Eprint, name: &str, input: &mut R, buffer: &mut [u8]) -> Filled
    ensures prefix_len { IsPrefixLen result.bytes buffer.new }
    ensures bytes_in_bounds { result.failed ≡ true → result.bytes < length buffer.new }
{
    let mut bytes = 0;
    while bytes < buffer.len() {
        match read_more(rt, name, input, buffer, bytes) {
            Ok(0) => break,
            Ok(more) => bytes += more,
            Err(_) => {
                return Filled {
                    bytes,
                    failed: true,
                };
            }
        }
    }
    Filled {
        bytes,
        failed: false,
    }
}

// The first bytes of net.bin. A file that is missing or cannot be opened counts as 0 bytes, and a read that fails as the end of the file; the
// reason is said on standard error.
pub fn read_image<R: Files + Eprint>(rt: &R, buffer: &mut [u8; MOST_IMAGE]) -> usize
    ensures { IsPrefixLen result buffer.new }
{
    match fs::open(rt, IMAGE) {
        Ok(mut file) => fill(rt, IMAGE, &mut file, buffer).bytes,
        Err(error) => {
            say_failure(rt, IMAGE, &error);
            0
        }
    }
}

// Moves the bytes of an unfinished row to the front, where the next read goes behind them: how many they are.
pub fn keep_rest(rows: &mut [u8], inputs: usize, there: usize) -> usize
    requires { (0 < inputs) × (there ≤ length rows.old) }
    ensures { (result ≡ there % inputs) × (take result rows.new ≡ rest_of inputs (take there rows.old)) }
{
    let rest = there % inputs;
    let from = there - rest;
    rows.copy_within(from..there, 0);
    rest
}
