// A quick test of a net, by limits of its operands. Nets that pass it need no other test.
ghost use Rattle.std.specs.Prelude.{◌≡◌, ◌<◌, ltb};
ghost use Rattle.net_checking.specs.Limits.{limit_places, limit_at, held_at, within_limits};

use image::Net;

// For operands a, b and c, and in each row for kinds 0 to 8: where, among the limits 1, 2, 3, the net's own number and N, the one stands that the operand
// lies below. Each limit stands behind the bits of an operand that are held to it: of a pin these are all but the top one.
const LIMIT_PLACES: [u8; 27] = *b"\
    \x02\x00\x08\x06\x06\x06\x06\x06\x06\
    \x00\x00\x04\x00\x06\x06\x06\x06\x02\
    \x00\x00\x00\x00\x00\x00\x00\x06\x00\
    ";

// The table by value. It is taken once a call, since a constant is copied to the stack wherever it is named.
#[tactic(auto, unfolding(crate::specs::Limits::limit_places))]
pub fn limit_places() -> [u8; 27]
    ensures { result ≡ limit_places }
{
    LIMIT_PLACES
}

// Whether an operand lies below its limit, which place p of the table names. There is no branch on the top bit of a pin.
fn held(places: &[u8; 27], limits: &[usize; 10], p: usize, x: usize) -> bool
    requires { (places.now ≡ limit_places) × (p < 27) }
    ensures { result ≡ ltb (held_at limits.now p x) (limit_at limits.now p) }
{
    let k = usize::from(places[p]);
    x & limits[k] < limits[k + 1]
}

// Whether each operand of a net lies below its limit.
#[tactic(auto, unfolding(crate::specs::Limits::within_limits))]
pub fn within(places: &[u8; 27], limits: &[usize; 10], x: Net) -> bool
    requires { (places.now ≡ limit_places) × (x.kind < 9) }
    ensures { result ≡ within_limits limits.now x }
{
    let kind = usize::from(x.kind);
    held(places, limits, kind, x.a)
        & held(places, limits, 9 + kind, x.b)
        & held(places, limits, 18 + kind, x.c)
}
