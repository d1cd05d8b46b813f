ghost use Rattle.std.specs.Prelude.{◌≡◌};
ghost use Rattle.algolw_tree.specs.Standards as standards;

/// An operation on one value.
#[derive(Clone, Copy, Debug, PartialEq, Eq)]
pub enum UnaryOp {
    /// The sign of a number is turned.
    Minus,
    /// `ABS`.
    Absolute,
    /// `~` of a LOGICAL.
    Not,
    /// `~` of BITS.
    Complement,
    /// `ODD`.
    IsOdd,
    /// `BITSTRING`.
    ToBits,
    /// `NUMBER`.
    ToNumber,
    /// `CODE`.
    ToCharacter,
    /// `DECODE`.
    ToCode,
}

/// A type that an operation on one value takes or gives.
#[derive(Clone, Copy, Debug, PartialEq, Eq)]
pub enum Basic {
    /// INTEGER.
    Integer,
    /// LOGICAL.
    Logical,
    /// BITS.
    Bits,
    /// STRING(1).
    Character,
}

impl UnaryOp {
    /// The type of its operand.
    pub fn takes(self) -> Basic
        ensures { result ≡ standards.takes self }
    {
        match self {
            UnaryOp::Minus
            | UnaryOp::Absolute
            | UnaryOp::IsOdd
            | UnaryOp::ToBits
            | UnaryOp::ToCharacter => Basic::Integer,
            UnaryOp::Not => Basic::Logical,
            UnaryOp::Complement | UnaryOp::ToNumber => Basic::Bits,
            UnaryOp::ToCode => Basic::Character,
        }
    }

    /// The type of its answer.
    pub fn gives(self) -> Basic
        ensures { result ≡ standards.gives self }
    {
        match self {
            UnaryOp::Minus | UnaryOp::Absolute | UnaryOp::ToNumber | UnaryOp::ToCode => {
                Basic::Integer
            }
            UnaryOp::Not | UnaryOp::IsOdd => Basic::Logical,
            UnaryOp::Complement | UnaryOp::ToBits => Basic::Bits,
            UnaryOp::ToCharacter => Basic::Character,
        }
    }
}

/// What of the written values a variable says.
#[derive(Clone, Copy, Debug, PartialEq, Eq)]
pub enum Width {
    /// The columns of an INTEGER: `I_W`.
    Columns,
    /// The blanks behind a value that is no string: `S_W`.
    Blanks,
}

/// A name that is declared in no deck.
#[derive(Clone, Copy, Debug, PartialEq, Eq)]
pub enum Standard {
    /// A function of one value.
    Function(UnaryOp),
    /// `READ`, which begins with the next card, or `READON`.
    Read { next: bool },
    /// `READCARD`.
    ReadCard,
    /// `WRITE`, which begins a line, or `WRITEON`.
    Write { first: bool },
    /// `IOCONTROL`.
    IoControl,
    /// `MAXINTEGER`.
    MaxInteger,
    /// `I_W` or `S_W`, an INTEGER variable.
    Variable(Width),
}

/// The names that are declared in a block round each program, in the order of their places.
pub const STANDARD: [(&[u8], Standard); 14] = [
    (b"ODD", Standard::Function(UnaryOp::IsOdd)),
    (b"BITSTRING", Standard::Function(UnaryOp::ToBits)),
    (b"NUMBER", Standard::Function(UnaryOp::ToNumber)),
    (b"CODE", Standard::Function(UnaryOp::ToCharacter)),
    (b"DECODE", Standard::Function(UnaryOp::ToCode)),
    (b"READ", Standard::Read { next: true }),
    (b"READON", Standard::Read { next: false }),
    (b"READCARD", Standard::ReadCard),
    (b"WRITE", Standard::Write { first: true }),
    (b"WRITEON", Standard::Write { first: false }),
    (b"IOCONTROL", Standard::IoControl),
    (b"MAXINTEGER", Standard::MaxInteger),
    (b"I_W", Standard::Variable(Width::Columns)),
    (b"S_W", Standard::Variable(Width::Blanks)),
];
