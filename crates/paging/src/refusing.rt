// When the call turns back: 1 to 8 by checking, and then 9, 13, 14 and 19.
ghost use Rattle.std.specs.Prelude.{◌≡◌, ◌≤◌};
ghost use Rattle.refusals.specs.Refusals.{◌then◌, plain_bytes, refusal_in, bad_byte, bad_length};
ghost use Rattle.page_text.specs.Pages.{pages_length};
ghost use Rattle.paging.specs.Paging.{page_refusal};

use checking::check;
use image::sizes_of;
use refusals::{Condition, Refusal, byte_refusal};

// The length of the pages of k cycles and o outputs.
#[tactic(auto, unfolding(page_text::specs::Pages::pages_length, page_text::specs::Pages::page_count))]
fn pages_length(k: usize, o: usize) -> usize
    requires { (k ≤ 4096) × (o ≤ 8192) }
    ensures { result ≡ pages_length k o }
{
    k.div_ceil(64) * ((1 + o) * 71)
}

// 13, 14 and 19, by the numbers of bytes that are wanted in the record and in the page buffer. The record's bytes are tried before its length.
#[tactic(auto, using(refusals::proofs::Refusals::plain_bad), unfolding(refusals::specs::Refusals::bad_length))]
fn lent_refusal(filed: usize, length: usize, outputs: &[u8], page: &[u8]) -> Result<(), Refusal>
    ensures { refusal_in result
        ≡ (bad_byte plain_bytes.bad 13 0 outputs.now then bad_length 14 filed outputs.now then bad_length 19 length page.now) }
{
    byte_refusal(Condition::RowByte.number(), 3, outputs)?;
    if outputs.len() != filed {
        return Err(Condition::BufferLength.at(0));
    }
    if page.len() != length {
        return Err(Condition::PageLength.at(0));
    }
    Ok(())
}

// The number of cycles is tested before anything is multiplied by it.
#[tactic(auto, using(checking::proofs::Checked::check_none), unfolding(crate::specs::Paging::page_refusal))]
pub fn page_refusal(image: &[u8], k: usize, outputs: &[u8], page: &[u8]) -> Result<(), Refusal>
    ensures { refusal_in result ≡ page_refusal image.now k outputs.now page.now }
{
    check(image)?;
    if 4096 < k {
        return Err(Condition::Cycles.at(0));
    }
    let z = sizes_of(image);
    lent_refusal(k * z.outputs, pages_length(k, z.outputs), outputs, page)
}
