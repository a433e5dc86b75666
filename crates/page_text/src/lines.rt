// The two kinds of lines. A line is put at a place of a lent buffer that has room for it, and the answer is the place behind it.
ghost use Rattle.std.specs.Prelude.{◌≡◌, ◌+◌, ◌≤◌, length};
ghost use Rattle.std.proofs.lemmas.List.Edits.{sets};
ghost use Rattle.page_text.specs.Pages.{heading, output_line};
ghost use Rattle.page_text.specs.Columns.{column_bytes};

use crate::columns::Column;
use crate::pieces::{put_blanks, put_signs};
use text::{digit_count, put_number, put_text};

// The heading line: the word cycle, and the number of the page's first cycle set left.
#[tactic(auto, using(crate::proofs::LineParts::line_lengths))]
pub fn put_heading(page: &mut [u8], at: usize, first: u64) -> usize
    requires { at + length (heading first) ≤ length page.old }
    ensures page_after { page.new ≡ sets page.old at (heading first) }
    ensures value { result ≡ at + length (heading first) }
{
    let p = put_text(page, at, b"cycle ");
    let q = put_number(page, p, first);
    let r = put_blanks(page, q, 64 - digit_count(first));
    put_text(page, r, b"\n")
}

// The line of an output: its net number set right, and one sign for each cycle.
#[tactic(auto, using(crate::proofs::LineParts::line_lengths))]
pub fn put_output(page: &mut [u8], at: usize, net: u16, column: Column) -> usize
    requires { at + length (output_line net (column_bytes column)) ≤ length page.old }
    ensures page_after { page.new ≡ sets page.old at (output_line net (column_bytes column.entry)) }
    ensures value { result ≡ at + length (output_line net (column_bytes column.entry)) }
{
    let n = u64::from(net);
    let p = put_blanks(page, at, 5 - digit_count(n));
    let q = put_number(page, p, n);
    let r = put_text(page, q, b" ");
    let s = put_signs(page, r, column);
    let t = put_blanks(page, s, 64 - column.cycles);
    put_text(page, t, b"\n")
}
