// Net bytes: value + 2 × mark.
ghost use Rattle.std.specs.Prelude.{cond, ◌≡◌, ◌<◌, eqb};
ghost use Rattle.gates.specs.Rules.{bit, mark, not_byte};

// Whether the mark of a byte is 1.
#[tactic(auto, unfolding(crate::specs::Rules::mark))]
pub fn marked(x: u8) -> bool
    ensures { result ≡ mark x }
{
    x / 2 % 2 == 1
}

// The mark of a byte, as the number 0 or 1.
pub fn mark_bit(x: u8) -> u16
    ensures { (result ≡ bit (mark x)) × (result < 2) }
{
    u16::from(marked(x))
}

// A byte with its value inverted where the flag is 1, and its mark unchanged.
pub fn inverted_if(x: u8, flag: u8) -> u8
    requires { (x < 4) × (flag < 2) }
    ensures { result ≡ cond (eqb flag 1) (not_byte x) x }
{
    x ^ flag
}
