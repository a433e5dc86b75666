// What a turn puts into the text: the page of the rows that are taken, and a refusal behind it.
ghost use Rattle.std.specs.Prelude.{◌≡◌, not, ◌+◌, ◌*◌, ◌≤◌, eqb, length};
ghost use Rattle.std.proofs.lemmas.List.Edits.{sets};
ghost use Rattle.refusals.specs.Refusals.{refuse, ◌then◌, refusal_in};
ghost use Rattle.page_text.specs.Pages.{pages_text, page_count};
ghost use Rattle.page_turns.specs.PagesOf.{last_line};
ghost use Rattle.page_turns.specs.Turns.{Asks, Taken};

use listing_text::refused_line;
use page_text::put_page;
use refusals::{Condition, Refusal};
use row_runs::run_rows;

// The page of n cycles, at the start of the text. No cycle gives no page.
fn put_cycles(text: &mut [u8], first: u64, n: usize, outs: &[u16], bytes: &[u8]) -> usize
    requires outs_len_bound { (length outs.now ≤ 8192) × (n ≤ 64) × (length bytes.now ≡ n * length outs.now) }
    requires outs_in_bounds { (1 + length outs.now) * 71 ≤ length text.old }
    ensures text_after { text.new ≡ sets text.old 0 (pages_text (page_count n) first n outs.now bytes.now) }
    ensures value { (result ≡ length (pages_text (page_count n) first n outs.now bytes.now)) × (result ≤ (1 + length outs.now) * 71) }
{
    if n == 0 {
        return 0;
    }
    put_page(text, 0, first, n, outs, bytes)
}

// The refusal that a row draws, or else 12 where bytes of a short row are left.
fn or_short(o: Result<(), Refusal>, rest: usize) -> Result<(), Refusal>
    ensures { refusal_in result ≡ (refusal_in o then refuse (not (eqb rest 0)) 12 0) }
{
    o?;
    if rest != 0 {
        return Err(Condition::RowsLength.at(0));
    }
    Ok(())
}

// A refusal as the last line, where there is one.
fn put_last(text: &mut [u8], at: usize, o: Result<(), Refusal>) -> usize
    requires { at + 71 ≤ length text.old }
    ensures text_after { text.new ≡ sets text.old at (last_line (refusal_in o)) }
    ensures value { (result ≡ at + length (last_line (refusal_in o))) × (result ≤ length text.new) }
{
    match o {
        Ok(()) => at,
        Err(r) => refused_line(text, at, r),
    }
}

// How many rows were taken, and how many bytes of the text are printed for them.
#[derive(Clone, Copy, Debug, PartialEq, Eq)]
pub struct Printed {
    pub good: usize,
    pub used: usize,
}

// Bytes of at most 64 rows, from cycle `first` on. Its parameters are those of `take_turn`, which may not change.
pub fn put_rows(
    image: &[u8],
    outs: &[u16],
    inputs: usize,
    state: &mut [u8],
    outputs: &mut [u8],
    bytes: &[u8],
    first: u64,
    text: &mut [u8],
) -> Printed
    requires { Asks image.now inputs outs.now state.old outputs.old text.old × (length bytes.now ≤ 64 * inputs) }
    ensures { Taken image.now inputs first bytes.now state.old state.new text.new result }
{
    let whole = bytes.len() / inputs;
    let end = whole * inputs;
    let filled = whole * outs.len();
    let ran = run_rows(
        image,
        inputs,
        outs.len(),
        whole,
        state,
        &bytes[..end],
        &mut outputs[..filled],
    );
    let good = ran.good;
    let shown = good * outs.len();
    let page = put_cycles(text, first, good, outs, &outputs[..shown]);
    let bad = ran.outcome;
    let o = or_short(bad, bytes.len() - end);
    let used = put_last(text, page, o);
    Printed { good, used }
}
