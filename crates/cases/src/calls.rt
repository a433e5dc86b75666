// The calls of the library, each known by its letter.
ghost use Rattle.io.specs.Counts.{IsPrefixLen};

use crate::answers::{doubled_size, outcome, run_answer, step_answer};
use cases_text::{list, say, say_bytes, say_image, say_lines, say_number, say_whether_changed};

// The calls, and the byte of a gate by either rule.
#[derive(Clone, Copy, PartialEq, Eq, Debug)]
enum Call {
    Gate,
    Check,
    PowerUp,
    Step,
    Run,
    StaticGate,
    StaticPowerUp,
    StaticRun,
    Double,
    DoubledSize,
    Page,
}

// A letter that no call has.
#[derive(Clone, Copy, PartialEq, Eq, Debug)]
struct UnknownCall(u8);

impl TryFrom<u8> for Call {
    type Error = UnknownCall;

    fn try_from(letter: u8) -> Result<Self, UnknownCall> {
        match letter {
            b'G' => Ok(Call::Gate),
            b'C' => Ok(Call::Check),
            b'P' => Ok(Call::PowerUp),
            b'S' => Ok(Call::Step),
            b'R' => Ok(Call::Run),
            b'T' => Ok(Call::StaticGate),
            b'A' => Ok(Call::StaticPowerUp),
            b'U' => Ok(Call::StaticRun),
            b'D' => Ok(Call::Double),
            b'F' => Ok(Call::DoubledSize),
            b'W' => Ok(Call::Page),
            _ => Err(UnknownCall(letter)),
        }
    }
}

// What is lent to a call.
#[derive(Drop)]
pub struct Lent<'a> {
    pub image: &'a [u8],
    pub state: &'a mut [u8],
    pub rows: &'a [u8],
    pub buffer: &'a mut [u8],
}

// The byte of a gate for the pins a, b and c, or none where there is no such gate.
fn plain_byte(kind: usize, a: u8, b: u8, c: u8) -> Option<u8> {
    if kind < 9 && a < 4 && b < 4 && c < 4 {
        Some(gates::gate_byte(&gates::table(), kind as u8, a, b, c))
    } else {
        None
    }
}

// The code of a gate with unknown pins, for the codes of the pins a, b and c, or none where there is no such gate.
fn static_byte(kind: usize, a: u8, b: u8, c: u8) -> Option<u8> {
    if kind < 9 && a < 8 && b < 8 && c < 8 {
        Some(unknowns::static_byte(
            &unknowns::mux_codes(),
            &unknowns::pair_codes(),
            kind,
            usize::from(a),
            usize::from(b),
            usize::from(c),
        ))
    } else {
        None
    }
}

// The bytes of a gate for the pins a, b, c, one triple after the other.
fn gate<F: Fn(usize, u8, u8, u8) -> Option<u8>>(
    rt: &impl Print,
    byte_of: F,
    kind: usize,
    pins: &[u8],
)
    requires { F.IsAlwaysCallable byte_of }
{
    say(rt, b": ");
    let (triples, _) = pins.as_chunks::<3>();
    for [a, b, c] in triples {
        match byte_of(kind, *a, *b, *c) {
            Some(byte) => say_number(rt, b"", usize::from(byte)),
            None => say(rt, b" [no such gate]"),
        }
    }
}

// Doubling: what is written, from net `from` on, or whether the buffer stayed as it was.
fn double(rt: &impl Print, image: &[u8], d: &mut [u8], from: usize) {
    let o = doubling::double(image, d);
    outcome(rt, o);
    match o {
        Ok(()) => say_image(rt, d, from),
        Err(_) => say_whether_changed(rt, d),
    }
}

// Pages: their text, or whether the buffer stayed as it was.
fn write(rt: &impl Print, image: &[u8], k: usize, outputs: &[u8], page: &mut [u8]) {
    let o = paging::page(image, k, outputs, page);
    outcome(rt, o);
    match o {
        Ok(()) => {
            say(rt, b", page ");
            say_lines(rt, page);
        }
        Err(_) => say_whether_changed(rt, page),
    }
}

// The answer of a call. K is the number of cycles of a run or of pages, the first net that is printed of a doubled image, or a gate's kind.
fn answer(rt: &impl Print, call: Call, k: usize, lent: &mut Lent) {
    let image = lent.image;
    let rows = lent.rows;
    let state = &mut *lent.state;
    let buffer = &mut *lent.buffer;
    match call {
        Call::Gate => gate(rt, plain_byte, k, rows),
        Call::Check => outcome(rt, checking::check(image)),
        Call::PowerUp => outcome(rt, tracker::power_up(image, state)),
        Call::Step => step_answer(rt, tracker::step(image, state, rows, buffer)),
        Call::Run => run_answer(rt, tracker::run(image, k, state, rows, buffer)),
        Call::StaticGate => gate(rt, static_byte, k, rows),
        Call::StaticPowerUp => outcome(rt, static_run::static_power_up(image, state)),
        Call::StaticRun => run_answer(rt, static_run::static_run(image, k, state, rows, buffer)),
        Call::Double => double(rt, image, buffer, k),
        Call::DoubledSize => doubled_size(rt, figures::doubled_size(image)),
        Call::Page => write(rt, image, k, rows, buffer),
    }
}

// The lent bytes after a call.
fn after(rt: &impl Print, call: Call, lent: &Lent) {
    match call {
        Call::PowerUp | Call::StaticPowerUp => say_bytes(rt, b", state", lent.state),
        Call::Step => {
            say_bytes(rt, b", state", lent.state);
            say_bytes(rt, b", nets", lent.buffer);
        }
        Call::Run | Call::StaticRun => {
            say_bytes(rt, b", state", lent.state);
            say_bytes(rt, b", outputs", lent.buffer);
        }
        _ => {}
    }
}

// The call that this letter names, and what is printed of it.
pub fn call_named(rt: &impl Print, letter: u8, k: usize, lent: &mut Lent) {
    match Call::try_from(letter) {
        Ok(call) => {
            answer(rt, call, k, lent);
            after(rt, call, lent);
        }
        Err(_) => say(rt, b" [no such call]"),
    }
}

// The image of the call at p; the doubled image, where the call has bytes for it.
pub fn image(rt: &impl Print, t: &[u8], p: usize, buffer: &mut [u8]) -> usize
    ensures { IsPrefixLen result buffer.new }
{
    let m = list(rt, t, p, b'd', buffer);
    if m == 0 {
        return list(rt, t, p, b'i', buffer);
    }
    let mut source = io::large_buffer();
    let n = list(rt, t, p, b'i', &mut source);
    let _ = doubling::double(&source[..n], &mut buffer[..m]);
    m
}
