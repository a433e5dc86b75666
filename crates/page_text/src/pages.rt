// Pages, one after the other.
ghost use Rattle.std.specs.Prelude.{◌≡◌, ◌+◌, ◌*◌, ◌≤◌, length};
ghost use Rattle.std.proofs.lemmas.List.Edits.{sets};
ghost use Rattle.page_text.specs.Pages.{page_text, pages_text, page_count, pages_length};

use crate::columns::Column;
use crate::lines::{put_heading, put_output};

// One page: the heading, and a line for each output.
pub fn put_page(
    page: &mut [u8],
    at: usize,
    first: u64,
    n: usize,
    outs: &[u16],
    bytes: &[u8],
) -> usize
    requires outs_len_bound { (length outs.now ≤ 8192) × (n ≤ 64) × (n * length outs.now ≤ length bytes.now) }
    requires outs_in_bounds { at + (1 + length outs.now) * 71 ≤ length page.old }
    ensures page_after { page.new ≡ sets page.old at (page_text first n outs.now bytes.now) }
    ensures value { result ≡ at + (1 + length outs.now) * 71 }
{
    let mut p = put_heading(page, at, first);
    for (j, &net) in outs.iter().enumerate() {
        let column = Column {
            bytes,
            outputs: outs.len(),
            output: j,
            cycles: n,
        };
        p = put_output(page, p, net, column);
    }
    p
}

// The cycles on a full page.
const CYCLES: usize = 64;

// The pages of k cycles, the first of which is cycle 0.
pub fn put_pages(page: &mut [u8], k: usize, outs: &[u16], bytes: &[u8])
    requires outs_len_bound { (length outs.now ≤ 8192) × (k ≤ 4096) × (length bytes.now ≡ k * length outs.now) }
    requires page_len { length page.old ≡ pages_length k (length outs.now) }
    ensures { page.new ≡ pages_text (page_count k) 0 k outs.now bytes.now }
{
    let mut at = 0;
    for i in 0..k.div_ceil(CYCLES) {
        let c = CYCLES * i;
        let n = CYCLES.min(k - c);
        at = put_page(page, at, c as u64, n, outs, &bytes[c * outs.len()..]);
    }
}
