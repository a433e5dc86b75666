// Every answer as one number.
ghost use Rattle.std.specs.Prelude.{◌≡◌, ◌^◌, ◌<◌, get_or};
ghost use Rattle.refusals.specs.Refusals.{refusal_in};
ghost use Rattle.cycle.specs.Answers.{verdict_in, first_flow_in, step_answer_in, run_answer_in};
ghost use Rattle.codes.specs.Codes.{low_place, refusal_code, outcome_code, page_code, verdict_code, first_flow_code, figure_answer, answer_code};

use cycle::{FirstFlow, Verdict};
use refusals::Refusal;

// The refusal's number × 2^32 + its place.
fn refusal_code(r: Refusal) -> u64
    requires { refusal_code r < 2 ^ 64 }
    ensures { result ≡ refusal_code r }
{
    u64::from(r.number) * 4294967296 + r.place as u64
}

// 65,535 for clear, or the flow's net.
fn verdict_code(v: Verdict) -> u64
    ensures { result ≡ verdict_code (verdict_in v) }
{
    match v {
        Verdict::Clear => 65535,
        Verdict::Flow(net) => net as u64,
    }
}

// The cycle × 65,536 + the number of the verdict.
fn first_flow_code(f: FirstFlow) -> u64
    requires { first_flow_code (first_flow_in f) < 2 ^ 64 }
    ensures { result ≡ first_flow_code (first_flow_in f) }
{
    f.cycle as u64 * 65536 + verdict_code(f.verdict)
}

// 0 for done, or the refusal.
pub fn outcome_code(o: Result<(), Refusal>) -> u64
    requires { outcome_code (refusal_in o) < 2 ^ 64 }
    ensures { result ≡ outcome_code (refusal_in o) }
{
    o.map_or_else(refusal_code, |()| 0)
}

// A refusal with its place, or with 2^32 − 1 where that is less.
fn with_low_place(r: Refusal) -> Refusal
    ensures { result ≡ low_place r }
{
    Refusal {
        place: r.place.min(4294967295),
        ..r
    }
}

// 0 for pages that are written, or the refusal, whose place is given up to 2^32 − 1.
pub fn page_code(o: Result<(), Refusal>) -> u64
    requires { page_code (refusal_in o) < 2 ^ 64 }
    ensures { result ≡ page_code (refusal_in o) }
{
    outcome_code(o.map_err(with_low_place))
}

// A figure of the doubled netlist, or the refusal.
pub fn figure_code(o: Result<(), Refusal>, figure: usize) -> u64
    requires { answer_code (λ n. n) (figure_answer (refusal_in o) figure) < 2 ^ 64 }
    ensures { result ≡ answer_code (λ n. n) (figure_answer (refusal_in o) figure) }
{
    o.map_or_else(refusal_code, |()| figure as u64)
}

// The count of one kind, which is 0 for a kind above 8; or the refusal.
pub fn kind_code(o: Result<(), Refusal>, kinds: [u16; 9], kind: usize) -> u64
    requires { answer_code (λ n. n) (figure_answer (refusal_in o) (get_or kinds kind 0)) < 2 ^ 64 }
    ensures { result ≡ answer_code (λ n. n) (figure_answer (refusal_in o) (get_or kinds kind 0)) }
{
    if 8 < kind {
        return figure_code(o, 0);
    }
    figure_code(o, usize::from(kinds[kind]))
}

// The verdict, or the refusal.
pub fn step_code(a: Result<Verdict, Refusal>) -> u64
    requires { answer_code verdict_code (step_answer_in a) < 2 ^ 64 }
    ensures { result ≡ answer_code verdict_code (step_answer_in a) }
{
    a.map_or_else(refusal_code, verdict_code)
}

// The first flow, its cycle × 65,536 + its verdict; or the refusal.
pub fn run_code(a: Result<FirstFlow, Refusal>) -> u64
    requires { answer_code first_flow_code (run_answer_in a) < 2 ^ 64 }
    ensures { result ≡ answer_code first_flow_code (run_answer_in a) }
{
    a.map_or_else(refusal_code, first_flow_code)
}
