// What step and run answer, where they are not refused.

// The verdict of a cycle: clear, or a flow that carries the output's net. It is no `Option`: `None` would not say whether it stands for clear.
#[derive(Clone, Copy, PartialEq, Eq, Debug)]
pub enum Verdict {
    Clear,
    Flow(usize),
}

// The first flow of a run, with its cycle. With a clear verdict the cycle is the number of cycles, which `first_flow_in` and the number for C give as well, so
// this is no `Option`.
#[derive(Clone, Copy, PartialEq, Eq, Debug)]
pub struct FirstFlow {
    pub cycle: usize,
    pub verdict: Verdict,
}
