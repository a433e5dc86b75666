// What is printed of the library's answers. A write that fails is passed over.
use cycle::{FirstFlow, Verdict};
use figures::DoubledSize;
use refusals::Refusal;

fn refusal(rt: &impl Print, r: Refusal) {
    let _ = print!(rt; ": refused {} {}", r.number, r.place);
}

pub fn outcome(rt: &impl Print, o: Result<(), Refusal>) {
    match o {
        Ok(()) => {
            let _ = print!(rt; ": accepted");
        }
        Err(r) => refusal(rt, r),
    }
}

fn verdict(rt: &impl Print, v: Verdict) {
    let _ = match v {
        Verdict::Clear => print!(rt; ": clear"),
        Verdict::Flow(net) => print!(rt; ": flow {net}"),
    };
}

pub fn step_answer(rt: &impl Print, a: Result<Verdict, Refusal>) {
    match a {
        Ok(v) => verdict(rt, v),
        Err(r) => refusal(rt, r),
    }
}

pub fn run_answer(rt: &impl Print, a: Result<FirstFlow, Refusal>) {
    match a {
        Ok(f) => {
            verdict(rt, f.verdict);
            let _ = print!(rt; ", cycle {}", f.cycle);
        }
        Err(r) => refusal(rt, r),
    }
}

// The figures of a doubled netlist, beside a refusal as well.
pub fn doubled_size(rt: &impl Print, d: DoubledSize) {
    outcome(rt, d.outcome);
    let _ = print!(rt; ", nets {}, bytes {}, kinds", d.nets, d.bytes);
    for count in d.kinds {
        let _ = print!(rt; " {count}");
    }
}
