// The kinds of nets, and the byte of a gate from the bytes of its pins, read from one table.
#![tactic(auto)]

mod bytes;
mod codes;
mod kinds;

pub use bytes::{inverted_if, mark_bit, marked};
pub use codes::{gate_byte, table};
pub use kinds::{Kind, UnknownKind};
