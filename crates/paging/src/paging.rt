// The call: its tests, and then the pages.
ghost use Rattle.std.specs.Prelude.{◌≡◌, length};
ghost use Rattle.std.proofs.Math.Option.{none};
ghost use Rattle.image.specs.Image.{sizes_of};
ghost use Rattle.paging.specs.Paging.{pages_of, page_refusal, page_of};
ghost use Rattle.paging.specs.Answers.{paged};

use crate::refusing::page_refusal;
use gates::Kind;
use image::sizes_of;
use lists::list_nets;
use page_text::put_pages;
use refusals::Refusal;

// The pages, with a list that is as long as there are outputs: it takes their net numbers.
fn put_listed(image: &[u8], k: usize, list: &mut [u16], outputs: &[u8], page: &mut [u8])
    requires { (page_refusal image.now k outputs.now page.old ≡ none) × (length list.old ≡ (sizes_of image.now).outputs) }
    ensures { page.new ≡ pages_of image.now k outputs.now }
{
    list_nets(image, Kind::Out as u8, list);
    put_pages(page, k, list, outputs);
}

// The pages of k cycles, by the K × O output bytes of a run, fill the page buffer. It turns back with 1 to 9, 13, 14 and 19.
pub fn page(image: &[u8], k: usize, outputs: &[u8], page: &mut [u8]) -> Result<(), Refusal>
    ensures { paged result page.new ≡ page_of image.now k outputs.now page.old }
{
    page_refusal(image, k, outputs, page)?;
    let mut list = [0u16; 8192];
    let n = sizes_of(image).outputs;
    put_listed(image, k, &mut list[..n], outputs, page);
    Ok(())
}
