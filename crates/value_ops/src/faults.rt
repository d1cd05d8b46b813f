ghost use Rattle.std.specs.Prelude.{◌≡◌};
ghost use Rattle.value_ops.specs.Faults.{fault_number, fault_text, limit_number, limit_text};

/// Why a job was ended at a phrase that has no value.
#[derive(Clone, Copy, Debug, PartialEq, Eq)]
pub enum Fault {
    /// F1: a result isn't an INTEGER.
    IntegerOverflow = 1,
    /// F2: a divisor is 0.
    DivisionByZero,
    /// F3: a subscript is outside its bounds.
    SubscriptOutsideBounds,
    /// F4: a part isn't within its string.
    PlaceOutsideString,
    /// F5: a CASE has no part of that number.
    CaseOutsideRange,
    /// F6: a variable is used before it has a value.
    ValueUndefined,
    /// F7: a field is taken of NULL.
    ReferenceNull,
    /// F8: a record is of another class.
    WrongRecordClass,
    /// F9: a name formal is assigned whose actual is no variable of its type.
    AssignmentToNoVariable,
    /// F10: the actuals of a procedure formal don't fit the procedure.
    ActualsDoNotFit,
    /// F11: no data are left.
    NoDataLeft,
    /// F12: a datum isn't of the form of its type.
    DatumIllFormed,
    /// F13: what is asserted is false.
    AssertionFalse,
    /// F14: the step of a FOR is 0.
    StepZero,
    /// F15: a shift is by a negative amount.
    ShiftNegative,
    /// F16: no character has this code.
    CodeOutsideRange,
    /// F17: a value that is to be written asks for columns or blanks that are outside their range.
    WidthOutOfRange,
}

impl Fault {
    /// Its number, 1 to 17.
    pub fn number(self) -> u8
        ensures { result ≡ fault_number self }
    {
        self as u8
    }

    /// What the listing says of it.
    pub fn text(self) -> &'static [u8]
        ensures { result.now ≡ fault_text self }
    {
        match self {
            Fault::IntegerOverflow => b"INTEGER OVERFLOW",
            Fault::DivisionByZero => b"DIVISION BY ZERO",
            Fault::SubscriptOutsideBounds => b"SUBSCRIPT OUTSIDE BOUNDS",
            Fault::PlaceOutsideString => b"PLACE OUTSIDE STRING",
            Fault::CaseOutsideRange => b"CASE OUTSIDE RANGE",
            Fault::ValueUndefined => b"VALUE UNDEFINED",
            Fault::ReferenceNull => b"REFERENCE NULL",
            Fault::WrongRecordClass => b"WRONG RECORD CLASS",
            Fault::AssignmentToNoVariable => b"ASSIGNMENT TO NO VARIABLE",
            Fault::ActualsDoNotFit => b"ACTUALS DO NOT FIT",
            Fault::NoDataLeft => b"NO DATA LEFT",
            Fault::DatumIllFormed => b"DATUM ILL FORMED",
            Fault::AssertionFalse => b"ASSERTION FALSE",
            Fault::StepZero => b"STEP ZERO",
            Fault::ShiftNegative => b"SHIFT NEGATIVE",
            Fault::CodeOutsideRange => b"CODE OUTSIDE RANGE",
            Fault::WidthOutOfRange => b"WIDTH OUT OF RANGE",
        }
    }
}

/// Which limit a job has met.
#[derive(Clone, Copy, Debug, PartialEq, Eq)]
pub enum Limit {
    /// L1: it would take a step more than its job card allows.
    Steps = 1,
    /// L2: it would begin a line more than its job card allows.
    Lines,
    /// L3: its live cells would be more than 32,768.
    Storage,
    /// L4: over 2,000 calls and copied actuals would be under way.
    Depth,
    /// L5: it would have over 4,096 records, or over 16,384 fields.
    Records,
}

impl Limit {
    /// Its number, 1 to 5.
    pub fn number(self) -> u8
        ensures { result ≡ limit_number self }
    {
        self as u8
    }

    /// What the listing says of it.
    pub fn text(self) -> &'static [u8]
        ensures { result.now ≡ limit_text self }
    {
        match self {
            Limit::Steps => b"STEPS",
            Limit::Lines => b"LINES",
            Limit::Storage => b"STORAGE",
            Limit::Depth => b"DEPTH",
            Limit::Records => b"RECORDS",
        }
    }
}
