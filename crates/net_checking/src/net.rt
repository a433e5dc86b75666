// The tests of one net: refusals 4 to 7. Each condition is written kind by kind.
ghost use Rattle.std.specs.Prelude.{◌≡◌};
ghost use Rattle.gates.specs.Kinds.{number_of};
ghost use Rattle.image.specs.Writing.{Fits};
ghost use Rattle.refusals.specs.Refusals.{refusal_in};
ghost use Rattle.net_checking.specs.NetCheck.{bad_pin, bad_value, bad_unlisted, net_refusal};
ghost use Rattle.net_checking.specs.Limits.{limits_of, limit_places};

use crate::limits::within;
use gates::Kind;
use image::{Net, pin_net};
use refusals::{Condition, Refusal};

// 5: a REG pin that names a net not below N, or another pin that names one not below its own.
fn bad_pin(n: usize, i: usize, kind: Kind, x: Net) -> bool
    requires { (number_of kind ≡ x.kind) × Fits x }
    ensures { result ≡ bad_pin n i x }
{
    let a = pin_net(x.a);
    let b = pin_net(x.b);
    let c = pin_net(x.c);
    match kind {
        Kind::Const | Kind::Input => false,
        Kind::Reg => n <= a,
        Kind::Not | Kind::Out => i <= a,
        Kind::And | Kind::Or | Kind::Xor => (i <= a) | (i <= b),
        Kind::Mux => (i <= a) | (i <= b) | (i <= c),
    }
}

// 6: a CONST above 1, a start above 2, a policy above 1.
fn bad_value(kind: Kind, x: Net) -> bool
    requires { number_of kind ≡ x.kind }
    ensures { result ≡ bad_value x }
{
    match kind {
        Kind::Const => 1 < x.a,
        Kind::Reg => 2 < x.b,
        Kind::Out => 1 < x.b,
        _ => false,
    }
}

// 7: an unlisted operand that is not 0.
fn bad_unlisted(kind: Kind, x: Net) -> bool
    requires { number_of kind ≡ x.kind }
    ensures { result ≡ bad_unlisted x }
{
    match kind {
        Kind::Input => (x.a != 0) | (x.b != 0) | (x.c != 0),
        Kind::Const | Kind::Not => (x.b != 0) | (x.c != 0),
        Kind::Mux => false,
        _ => x.c != 0,
    }
}

// Refusals 4 to 7 at net i of n, by the conditions themselves.
#[tactic(auto, unfolding(crate::specs::NetCheck::net_refusal))]
fn refuse_net(n: usize, i: usize, x: Net) -> Result<(), Refusal>
    requires { Fits x }
    ensures { refusal_in result ≡ net_refusal n i x }
{
    let Ok(kind) = Kind::try_from(x.kind) else {
        return Err(Condition::Kind.at(i));
    };
    if bad_pin(n, i, kind, x) {
        return Err(Condition::Pin.at(i));
    }
    if bad_value(kind, x) {
        return Err(Condition::Value.at(i));
    }
    if bad_unlisted(kind, x) {
        return Err(Condition::Unlisted.at(i));
    }
    Ok(())
}

// Refusals 4 to 7 at net i of n. Most nets pass by the limits of their operands alone.
#[tactic(auto, using(crate::proofs::Below::within_passes))]
pub fn check_net(
    places: &[u8; 27],
    limits: &[usize; 10],
    n: usize,
    i: usize,
    x: Net,
) -> Result<(), Refusal>
    requires { (places.now ≡ limit_places) × (limits.now ≡ limits_of n i) × Fits x }
    ensures { refusal_in result ≡ net_refusal n i x }
{
    if x.kind <= Kind::Out as u8 && within(places, limits, x) {
        return Ok(());
    }
    refuse_net(n, i, x)
}
