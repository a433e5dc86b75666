// Passes over listed nets: bytes put to them and taken from them, the clock, and the verdict. The nets stand with their inverses, 32,768 places behind.
ghost use Rattle.std.specs.Prelude.{◌≡◌, length};
ghost use Rattle.std.proofs.Math.Option.{none};
ghost use Rattle.gates.specs.Kinds.{REG};
ghost use Rattle.image.specs.Image.{nets_of};
ghost use Rattle.image.specs.Places.{places_from};
ghost use Rattle.checking.specs.Check.{check_refusal};
ghost use Rattle.cycle.specs.Answers.{verdict_in, first_flow_in};
ghost use Rattle.cycle.specs.Cycle.{first_of};
ghost use Rattle.unknowns.specs.Widths.{Coded};
ghost use Rattle.lists.specs.Lists.{Within, Places, Put, at_pins, gathered, first_marked};

use cycle::{FirstFlow, Verdict};
use gates::marked;
use image::operand_of;
use inverses::put_both;
use unknowns::inverse;

// Each listed net takes a code, in order, and its inverse.
pub fn put_bytes(width: usize, list: &[u16], bytes: &[u8], nets: &mut [u8])
    requires coded { Coded width bytes.now }
    requires bytes_len { (length bytes.now ≡ length list.now) × Places 8192 list.now × (length nets.old ≡ 40960) }
    ensures { Put width list.now bytes.now nets.old nets.new (length list.now) }
{
    for (j, &i) in list.iter().enumerate() {
        let x = bytes[j];
        put_both(nets, usize::from(i), x, inverse(width, x));
    }
}

// The bytes of the listed nets, in order.
pub fn take_bytes(list: &[u16], nets: &[u8], bytes: &mut [u8])
    requires { (length bytes.old ≡ length list.now) × Within (length nets.now) list.now }
    ensures { bytes.new ≡ gathered list.now nets.now }
{
    for (j, &i) in list.iter().enumerate() {
        bytes[j] = nets[usize::from(i)];
    }
}

// The clock: every listed register takes what its pin reads, all together. That stands at the place which is the pin's number.
pub fn clock_listed(image: &[u8], list: &[u16], nets: &[u8], state: &mut [u8])
    requires image_value { (check_refusal image.now ≡ none) × (length nets.now ≡ 40960) }
    requires list_value { (list.now ≡ places_from REG 0 (nets_of image.now)) × (length state.old ≡ length list.now) }
    ensures { state.new ≡ at_pins image.now list.now nets.now }
{
    for (j, &i) in list.iter().enumerate() {
        let a = operand_of(image, usize::from(i), 0);
        state[j] = nets[a];
    }
}

// A flow at the first listed net that has mark 1, or clear. Listed are the protected OUTs, in net order.
fn verdict_listed(list: &[u16], nets: &[u8]) -> Verdict
    requires { Within (length nets.now) list.now }
    ensures { verdict_in result ≡ first_marked list.now nets.now }
{
    let mut verdict = Verdict::Clear;
    for &net in list {
        let i = usize::from(net);
        if marked(nets[i]) {
            verdict = Verdict::Flow(i);
            break;
        }
    }
    verdict
}

// The first flow of cycles 0 to c, by the listed protected OUTs. `earlier` is that of the cycles before c.
pub fn first_listed(earlier: FirstFlow, c: usize, list: &[u16], nets: &[u8]) -> FirstFlow
    requires { Within (length nets.now) list.now }
    ensures { first_flow_in result
        ≡ first_of earlier.cycle (verdict_in earlier.verdict)
        (first_of c (first_marked list.now nets.now) (first_flow_in earlier)) }
{
    match earlier.verdict {
        Verdict::Flow(_) => earlier,
        Verdict::Clear => match verdict_listed(list, nets) {
            Verdict::Clear => earlier,
            Verdict::Flow(i) => FirstFlow {
                cycle: c,
                verdict: Verdict::Flow(i),
            },
        },
    }
}
