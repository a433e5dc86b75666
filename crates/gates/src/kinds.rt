// The kinds of nets. In an image a kind is one byte, the kind's number, and a byte above 8 is none.
ghost use Rattle.gates.specs.Kinds.{Decodes};

// The kinds, in the order of their numbers, 0 to 8.
#[derive(Clone, Copy, PartialEq, Eq, PartialOrd, Ord, Debug)]
pub enum Kind {
    Const,
    Input,
    Reg,
    Not,
    And,
    Or,
    Xor,
    Mux,
    Out,
}

// A byte that is no kind's number.
#[derive(Clone, Copy, PartialEq, Eq, Debug)]
pub struct UnknownKind(pub u8);

impl TryFrom<u8> for Kind {
    type Error = UnknownKind;

    ghost try_from_gives = { Decodes };

    fn try_from(byte: u8) -> Result<Self, UnknownKind> {
        match byte {
            0 => Ok(Kind::Const),
            1 => Ok(Kind::Input),
            2 => Ok(Kind::Reg),
            3 => Ok(Kind::Not),
            4 => Ok(Kind::And),
            5 => Ok(Kind::Or),
            6 => Ok(Kind::Xor),
            7 => Ok(Kind::Mux),
            8 => Ok(Kind::Out),
            _ => Err(UnknownKind(byte)),
        }
    }
}
