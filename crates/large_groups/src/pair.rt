// The two pins that a pin becomes.

// The value pin and the mark pin of a pin: they name the first and the last net of the group of its net.
#[derive(Clone, Copy, PartialEq, Eq, Debug)]
pub struct Pair {
    pub value: usize,
    pub mark: usize,
}
