// The pieces of a line: blanks, and signs. Each is put at a place of a lent buffer that has room for it, and answers the place behind it.
ghost use Rattle.std.specs.Prelude.{◌≡◌, map, ℕ, ◌+◌, ◌%◌, ◌≤◌, length, get_or};
ghost use Rattle.std.proofs.lemmas.List.Edits.{sets};
ghost use Rattle.page_text.specs.Pages.{blanks, sign};
ghost use Rattle.page_text.specs.Columns.{column_bytes};

use crate::columns::Column;
use text::put_text;

// The sign of each byte, 0 to 3.
const SIGNS: [u8; 4] = *b"01lh";

// The signs by value, which are taken before a loop: a constant is copied to the stack wherever it is named.
fn signs() -> [u8; 4]
    ensures { (b : ℕ) → get_or result (b % 4) 0 ≡ sign b }
{
    SIGNS
}

// So many blanks.
pub fn put_blanks(page: &mut [u8], at: usize, columns: usize) -> usize
    requires { (columns ≤ 64) × (at + columns ≤ length page.old) }
    ensures page_after { page.new ≡ sets page.old at (blanks columns) }
    ensures value { result ≡ at + length (blanks columns) }
{
    let all = [b' '; 64];
    put_text(page, at, &all[..columns])
}

// One sign per cycle of an output's column.
pub fn put_signs(page: &mut [u8], at: usize, column: Column) -> usize
    requires { at + column.cycles ≤ length page.old }
    ensures page_after { page.new ≡ sets page.old at (map sign (column_bytes column.entry)) }
    ensures value { result ≡ at + length (map sign (column_bytes column.entry)) }
{
    let table = signs();
    for c in 0..column.cycles {
        page[at + c] = table[usize::from(column.byte(c) % 4)];
    }
    at + column.cycles
}
