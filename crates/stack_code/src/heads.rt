use crate::instructions::Source;
use algolw_tree::Gives;
use value_ops::{Name, Place, SimpleType};

/// A name, as a dump shows it, and where it is declared.
#[derive(Clone, Copy, PartialEq, Eq)]
pub struct CodedName {
    /// Where it is declared.
    pub place: Place,
    /// As it is written.
    pub text: Name,
}

/// What a formal is.
#[derive(Clone, Copy, Debug, PartialEq, Eq)]
pub enum FormalType {
    /// A name formal of a type.
    ByName(SimpleType),
    /// A VALUE formal of a type.
    Value(SimpleType),
    /// A RESULT formal of a type.
    Result(SimpleType),
    /// A VALUE RESULT formal of a type.
    ValueResult(SimpleType),
    /// An array.
    Array {
        /// The type of its elements.
        kind: SimpleType,
        /// How many dimensions it has.
        dimensions: u32,
    },
    /// A procedure, with the type of its value where it has one.
    Procedure(Option<SimpleType>),
}

/// A formal of a procedure.
#[derive(Clone, Copy, Debug, PartialEq, Eq)]
pub struct Formal {
    /// The number of its name.
    pub name: u32,
    /// What it is.
    pub is: FormalType,
}

/// What is known of a procedure where its text stands.
#[derive(Drop)]
pub struct ProcedureHead {
    /// The number of its name.
    pub name: u32,
    /// The type of its value, where it has one.
    pub result: Option<SimpleType>,
    /// Its formals.
    pub formals: Vec<Formal>,
}

/// How an actual is read where it is compared with a formal.
#[derive(Clone, Copy, Debug, PartialEq, Eq)]
pub enum Reading {
    /// A phrase.
    Phrase {
        /// Whether it is a variable.
        is_variable: bool,
        /// What it gives.
        gives: Gives,
    },
    /// The name alone of what stands for it.
    Name(Source),
    /// A part of an array.
    Subarray {
        /// What stands for the array.
        array: Source,
        /// How many dimensions it has.
        stars: u32,
    },
    /// A name that stands for nothing that is read.
    Nothing,
}

/// What is known of an actual where its text stands.
#[derive(Clone, Copy, Debug, PartialEq, Eq)]
pub struct TextHead {
    /// Its first token.
    pub first: Place,
    /// How it is read.
    pub reading: Reading,
}

/// The subscripts of a subarray, each a star or not.
#[derive(Drop)]
pub struct Stars {
    /// Whether each is one.
    pub are: Vec<bool>,
}
