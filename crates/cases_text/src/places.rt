// What stands at a place of the text. Behind its last byte there is nothing but line ends.
ghost use Rattle.std.specs.Prelude.{◌≡◌, ◌+◌, ◌-◌, ◌<◌, ◌≤◌, length};

pub fn byte_at(t: &[u8], p: usize) -> u8 {
    t.get(p).copied().unwrap_or(b'\n')
}

// The next place.
pub fn next(t: &[u8], p: usize) -> usize
    ensures within { p < length t.now → result ≡ p + 1 }
    ensures at_end { length t.now ≤ p → result ≡ p }
{
    if p < t.len() { p + 1 } else { p }
}

// What stands from one place to before another.
pub fn part(t: &[u8], from: usize, end: usize) -> &[u8]
    ensures { length result.now ≤ length t.now - from }
{
    let end = end.min(t.len());
    &t[from.min(end)..end]
}

// What stands from a place on.
pub fn behind(t: &[u8], p: usize) -> &[u8]
    ensures { length result.now ≡ length t.now - p }
{
    &t[p.min(t.len())..]
}

// The first place from p on that has this byte or a line's end.
pub fn until(t: &[u8], p: usize, b: u8) -> usize
    ensures { p ≤ result }
{
    let rest = behind(t, p);
    let line_end = rest.iter().position(|c| (*c == b) | (*c == b'\n'));
    p + line_end.unwrap_or(rest.len())
}
