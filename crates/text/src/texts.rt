// A text, put at a place of a lent buffer that has room for it. The answer is the place behind it.
ghost use Rattle.std.specs.Prelude.{◌≡◌, ◌+◌, ◌≤◌, leb, length};
ghost use Rattle.std.proofs.lemmas.List.Edits.{sets};

// Whether a buffer has room for so many bytes from a place on.
pub fn fits(buffer: &[u8], at: usize, bytes: usize) -> bool
    ensures { result ≡ leb (at + bytes) (length buffer.now) }
{
    at <= buffer.len() && bytes <= buffer.len() - at
}

// A text as it is.
pub fn put_text(buffer: &mut [u8], at: usize, text: &[u8]) -> usize
    requires { at + length text.now ≤ length buffer.old }
    ensures buffer_after { buffer.new ≡ sets buffer.old at text.now }
    ensures value { result ≡ at + length text.now }
{
    let end = at + text.len();
    buffer[at..end].copy_from_slice(text);
    end
}
