// What the call answers.
use refusals::Refusal;

// Whether the image can be doubled; and the doubled netlist's nets, its bytes, and how many nets of each kind, 0 to 8, it holds. Beside a refusal these are 0.
// So it is a struct and no `Result`: `no_figures` speaks of the figures beside a refusal.
#[derive(Clone, Copy, PartialEq, Eq, Debug)]
pub struct DoubledSize {
    pub outcome: Result<(), Refusal>,
    pub nets: usize,
    pub bytes: usize,
    pub kinds: [u16; 9],
}
