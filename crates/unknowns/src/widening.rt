// One table of all codes with unknowns, with eight places for each pin, so that the place of a code is found by shifts. It is made once a run.
ghost use Rattle.std.specs.Prelude.{◌≡◌, true, ◌+◌, ◌*◌, ◌<◌, length};
ghost use Rattle.unknowns.specs.Filling.{is_code, static_byte};
ghost use Rattle.unknowns.specs.Tables.{place, MuxTable, PairTable};
ghost use Rattle.unknowns.specs.Widths.{Tabled};

use crate::tables::{mux_codes, pair_codes};
use gates::Kind;

// Where a code stands among the six. 5 and 7 are no codes, and get a place that is there.
fn place_of(x: usize) -> usize
    ensures { (result < 6) × (is_code x ≡ true → result ≡ place x) }
{
    x.min(5)
}

// The code of a gate or OUT from the codes of its pins, where they are codes.
pub fn static_byte(
    mux: &[u8; 216],
    pairs: &[u8; 324],
    kind: usize,
    a: usize,
    b: usize,
    c: usize,
) -> u8
    requires mux_table { MuxTable mux.now × PairTable pairs.now }
    requires kind_bound { (kind < 9) × (a < 8) × (b < 8) × (c < 8) }
    ensures { is_code a ≡ true → is_code b ≡ true → is_code c ≡ true → result ≡ static_byte kind a b c }
{
    let x = place_of(a);
    let y = place_of(b);
    let z = place_of(c);
    if kind == Kind::Mux as usize {
        return mux[(x * 6 + y) * 6 + z];
    }
    pairs[(kind * 6 + x) * 6 + y]
}

// The table.
#[tactic(auto, using(crate::proofs::ByWidth::wide_tabled))]
fn wide_table() -> [u8; 4608]
    ensures { Tabled 8 result }
{
    let mux = mux_codes();
    let pairs = pair_codes();
    let mut t = [0; 4608];
    for r in 0..576 {
        for c in 0..8 {
            t[r * 8 + c] = static_byte(&mux, &pairs, r / 64, r / 8 % 8, r % 8, c);
        }
    }
    t
}

// The table for a run of that width: with 4 there are no unknowns, and it is not looked at.
pub fn wide_table_for(width: usize) -> [u8; 4608]
    ensures { (length result ≡ 4608) × (width ≡ 8 → Tabled 8 result) }
{
    if width == 8 { wide_table() } else { [0; 4608] }
}
