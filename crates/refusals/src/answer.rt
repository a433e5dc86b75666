// What turns a call back: a condition of the table of refusals, and a place.
ghost use Rattle.std.specs.Prelude.{◌≡◌};
ghost use Rattle.std.proofs.Math.Option.{some};
ghost use Rattle.refusals.specs.Refusals.{number_of, refusal, refusal_in};

// The conditions of the table of refusals, in its order.
#[derive(Clone, Copy, PartialEq, Eq, Debug)]
pub enum Condition {
    ShortImage,
    NetCount,
    ImageLength,
    Kind,
    Pin,
    Value,
    Unlisted,
    Counts,
    Cycles,
    StateLength,
    StateByte,
    RowsLength,
    RowByte,
    BufferLength,
    DoubledNets,
    DoubledLength,
    DoubledImage,
    Code,
    PageLength,
    MarkedCount,
}

impl Condition {
    // Its number in the table.
    pub fn number(self) -> u32
        ensures { result ≡ number_of self }
    {
        match self {
            Condition::ShortImage => 1,
            Condition::NetCount => 2,
            Condition::ImageLength => 3,
            Condition::Kind => 4,
            Condition::Pin => 5,
            Condition::Value => 6,
            Condition::Unlisted => 7,
            Condition::Counts => 8,
            Condition::Cycles => 9,
            Condition::StateLength => 10,
            Condition::StateByte => 11,
            Condition::RowsLength => 12,
            Condition::RowByte => 13,
            Condition::BufferLength => 14,
            Condition::DoubledNets => 15,
            Condition::DoubledLength => 16,
            Condition::DoubledImage => 17,
            Condition::Code => 18,
            Condition::PageLength => 19,
            Condition::MarkedCount => 20,
        }
    }

    // The refusal for this condition, at a place.
    pub fn at(self, place: usize) -> Refusal
        ensures { result ≡ refusal (number_of self) place }
    {
        Refusal {
            number: self.number(),
            place,
        }
    }
}

// The number of a refusal in the table, and its place: a net, an index, or 0. The number is no `Condition`: `byte_refusal`, `codes_refusal` and `refused`
// promise their refusals for every number, and C is answered it.
#[derive(Clone, Copy, PartialEq, Eq, Debug)]
pub struct Refusal {
    pub number: u32,
    pub place: usize,
}

// The answer that turns a call back, of a call that has no result of its own.
pub fn refused(number: u32, place: usize) -> Result<(), Refusal>
    ensures { refusal_in result ≡ some (refusal number place) }
{
    Err(Refusal { number, place })
}
