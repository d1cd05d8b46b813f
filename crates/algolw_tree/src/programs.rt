use crate::phrases::{Mode, Op, RelOp};
use crate::tokens::Literal;
use record_classes::ClassTable;
use value_ops::{Name, Place, SimpleType};

/// A program without faults: each name in it is tied to its declaration, and each type to what it means.
#[derive(Drop)]
pub struct Program {
    /// The program's block.
    pub root: Node,
    /// What is declared, in order of place: first the names that stand in no deck, then those of the deck. A name goes by
    /// its number here.
    pub names: Vec<NameInfo>,
    /// The record classes, in order of place, and the sets of them that references are to.
    pub classes: ClassTable,
    /// The number of the name of each record class.
    pub class_names: Vec<u32>,
    /// The place of the first token of each statement, in order. A statement goes by its number here.
    pub statements: Vec<Place>,
}

/// A name that is declared.
#[derive(Clone, Copy, PartialEq, Eq)]
pub struct NameInfo {
    /// The name.
    pub name: Name,
    /// Where it is declared: on card 0 where it stands in no deck, and at the word `FOR` where it is a control name.
    pub place: Place,
    /// In how many procedures it is declared.
    pub level: u16,
    /// How many names the scopes around it that belong to the same procedure declare, and its own scope before it.
    pub slot: u32,
}

/// What is declared, each by its number, with the place where that is written.
pub type Targets = Vec<(u32, Place)>;

/// A phrase of a program.
#[cycle(nodes)]
#[derive(Drop)]
pub struct Node {
    /// The place that its diagnostics would name.
    pub place: Place,
    /// The place of its first token.
    pub first: Place,
    /// What it is.
    pub kind: NodeKind,
    /// What it gives: nothing where it is an actual that stands for an array or a procedure, or may.
    pub gives: Option<Gives>,
    /// Its number among the statements, where it is one.
    pub statement: Option<u32>,
}

/// What a phrase gives.
#[derive(Clone, Copy, Debug, PartialEq, Eq)]
pub enum Gives {
    /// Nothing: it is done.
    Statement,
    /// A value of a type. That of `NULL` is the reference to no class.
    Simple(SimpleType),
}

/// What a phrase of a program is, with each name as its number.
#[cycle(nodes)]
#[derive(Drop)]
pub enum NodeKind {
    /// Nothing, as between two semicolons.
    Empty,
    /// `NULL`.
    Null,
    /// A number that is written out.
    Number(i32),
    /// `TRUE` or `FALSE`.
    Truth(bool),
    /// Bits that are written out.
    BitsLit(u32),
    /// A string that is written out.
    Quoted(Box<Literal>),
    /// A name, and the lists in parentheses behind it.
    Named(u32, Vec<TypedList>),
    /// `~` and its operand.
    Negated(Box<Node>),
    /// `ABS` and its operand.
    Abs(Box<Node>),
    /// A term behind a sign, which is a minus or not.
    Signed(bool, Box<Node>),
    /// Operands with operators of one level between them, from left to right.
    Chain(Box<Node>, Vec<TypedLink>),
    /// A comparison.
    Relation(RelOp, Box<Node>, Box<Node>),
    /// Whether a reference is to a record of the class that is named at a place.
    IsClass(Box<Node>, u32, Place),
    /// An assignment of the second to the first.
    Assign(Box<Node>, Box<Node>),
    /// `IF`, its condition, what is done where it holds, and otherwise.
    IfThen(Box<Node>, Box<Node>, Option<Box<Node>>),
    /// `CASE` with the values to choose from.
    CaseValue(Box<Node>, Vec<Node>),
    /// `CASE` with the statements to choose from.
    CaseDo(Box<Node>, Vec<TypedPart>),
    /// `FOR` a control name: the start, the step, the limit, and what is done.
    ForStep(u32, Box<Node>, Option<Box<Node>>, Box<Node>, Box<Node>),
    /// `FOR` a control name: the values, and what is done.
    ForList(u32, Vec<Node>, Box<Node>),
    /// `WHILE`, its condition, and what is done.
    WhileDo(Box<Node>, Box<Node>),
    /// `GOTO` a label.
    Goto(u32),
    /// `ASSERT` a condition.
    Assert(Box<Node>),
    /// A block: its declarations and its items.
    Block(Vec<TypedDecl>, Vec<TypedItem>),
}

/// An operator of a chain and the operand behind it.
#[cycle(nodes)]
#[derive(Drop)]
pub struct TypedLink {
    /// The operator.
    pub op: Op,
    /// The operator's place.
    pub place: Place,
    /// The operand.
    pub right: Node,
}

/// A list in parentheses behind a name.
#[cycle(nodes)]
#[derive(Drop)]
pub struct TypedList {
    /// The place of its opening parenthesis.
    pub place: Place,
    /// What it is.
    pub kind: TypedListKind,
}

/// What a list behind a name is.
#[cycle(nodes)]
#[derive(Drop)]
pub enum TypedListKind {
    /// Subscripts, fields or actuals.
    Actuals(Vec<TypedActual>),
    /// A part of a string: the place where it begins, and its length.
    Part(Box<Node>, i32),
}

/// A subscript, a field or an actual.
#[cycle(nodes)]
#[derive(Drop)]
pub enum TypedActual {
    /// `*`, which stands for a whole dimension, at a place.
    Star(Place),
    /// A phrase.
    Phrase(Node),
}

/// A statement that may be missing, as it stands in a row.
#[cycle(nodes)]
#[derive(Drop)]
pub enum TypedPart {
    /// Nothing, before the token at a place, as between two semicolons.
    Empty(Place),
    /// A phrase.
    Phrase(Box<Node>),
}

/// A phrase of a block, behind its labels.
#[cycle(nodes)]
#[derive(Drop)]
pub enum TypedItem {
    /// Nothing, without labels, before the token at a place.
    Empty(Place),
    /// A phrase without labels.
    Plain(Box<Node>),
    /// A phrase behind its labels.
    Labelled(Box<TypedLabelled>),
}

/// A phrase, and the labels before it.
#[cycle(nodes)]
#[derive(Drop)]
pub struct TypedLabelled {
    /// Its labels.
    pub labels: Targets,
    /// The phrase.
    pub phrase: Box<Node>,
}

/// A declaration.
#[cycle(nodes)]
#[derive(Drop)]
pub enum TypedDecl {
    /// Simple variables of a type.
    Simple(SimpleType, Targets),
    /// Arrays of a type, with their bounds.
    Array(SimpleType, Targets, Vec<TypedBound>),
    /// A procedure.
    Proc(TypedProc),
    /// A record class.
    Class(TypedClass),
}

/// The bounds of a dimension.
#[cycle(nodes)]
#[derive(Drop)]
pub struct TypedBound {
    /// The place of `::`.
    pub place: Place,
    /// The lower bound.
    pub lower: Node,
    /// The upper bound.
    pub upper: Node,
}

/// A procedure.
#[cycle(nodes)]
#[derive(Drop)]
pub struct TypedProc {
    /// The place of `PROCEDURE`.
    pub place: Place,
    /// The type of its value, where it has one.
    pub result: Option<SimpleType>,
    /// Its number, and where its name stands.
    pub name: (u32, Place),
    /// Its formals.
    pub formals: Vec<TypedFormal>,
    /// Its body, which may be empty.
    pub body: Box<Node>,
}

/// A record class.
#[derive(Drop)]
pub struct TypedClass {
    /// Its number among the names, and where its name stands.
    pub name: (u32, Place),
    /// Its fields, by groups of one type.
    pub groups: Vec<(SimpleType, Targets)>,
}

/// Formals of a procedure that are declared together.
#[derive(Drop)]
pub struct TypedFormal {
    /// Their type, which procedures without a value have none of.
    pub spec: Option<SimpleType>,
    /// How they are passed.
    pub mode: Mode,
    /// What they are.
    pub names: Targets,
    /// How many dimensions they have: none but of arrays.
    pub dimensions: u32,
}
