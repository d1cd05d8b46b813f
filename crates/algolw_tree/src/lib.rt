//! What a deck of ALGOL W is made of.
#![tactic(auto)]

mod phrases;
mod programs;
mod spelling;
mod standard;
mod tokens;
mod whole;
mod words;

pub use phrases::{
    Actual, Applied, Assignment, Block, Bound, CaseDo, CaseValue, Chain, ClassDecl, ClassTest,
    Conditional, Decl, ForList, ForStep, Formal, Item, Kind, Labelled, Link, List, ListKind,
    Listed, Mode, Names, Op, Part, Phrase, ProcDecl, RelOp, Relation, Repetition, TypeSpec,
};
pub use programs::{
    Gives, NameInfo, Node, NodeKind, Program, Targets, TypedActual, TypedBound, TypedClass,
    TypedDecl, TypedFormal, TypedItem, TypedLabelled, TypedLink, TypedList, TypedListKind,
    TypedPart, TypedProc,
};
pub use spelling::{ShortName, Spelling};
pub use standard::{Basic, STANDARD, Standard, UnaryOp, Width};
pub use tokens::{Literal, Symbol, Token, TokenKind, Word};
pub use whole::{LIBRARY_PLACE, MOST_DECK_CARDS, Whole};
pub use words::WORDS;
