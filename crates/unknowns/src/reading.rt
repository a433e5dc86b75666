// The code of a gate from the codes of its pins, read from one table. A table of width 4 holds plain bytes, and one of width 8 codes with unknowns; its width is how
// many places it has for each pin.
ghost use Rattle.std.specs.Prelude.{◌≡◌, true, ◌<◌};
ghost use Rattle.gates.specs.Kinds.{NOT};
ghost use Rattle.unknowns.specs.Widths.{rule_by, code_by, Tabled};

use gates::inverted_if;

// From a table of width W.
fn code_at<const W: usize>(t: &[u8], kind: u8, a: u8, b: u8, c: u8) -> u8
    requires tabled { Tabled W t.now × (kind < 9) }
    requires a_value { (code_by W a ≡ true) × (code_by W b ≡ true) × (code_by W c ≡ true) }
    ensures { result ≡ rule_by W kind a b c }
{
    t[((usize::from(kind) * W + usize::from(a)) * W + usize::from(b)) * W + usize::from(c)]
}

// From a table of either width. The width stays a number: `code_by` and `inverse` may not change, and take every width that a
// caller has as a value; the kind is a byte, as in `gate_byte` of `gates`.
pub fn code_by(t: &[u8], width: usize, kind: u8, a: u8, b: u8, c: u8) -> u8
    requires tabled { Tabled width t.now × (kind < 9) }
    requires a_value { (code_by width a ≡ true) × (code_by width b ≡ true) × (code_by width c ≡ true) }
    ensures { result ≡ rule_by width kind a b c }
{
    if width == 4 {
        code_at::<4>(t, kind, a, b, c)
    } else {
        code_at::<8>(t, kind, a, b, c)
    }
}

// What a NOT of a code gives, by the rule of that width: an unknown bit stays as it is.
pub fn inverse(width: usize, x: u8) -> u8
    requires { code_by width x ≡ true }
    ensures { result ≡ rule_by width NOT x 0 0 }
{
    if width != 4 && 3 < x {
        return x;
    }
    inverted_if(x, 1)
}
