use crate::spelling::{ShortName, Spelling};
use value_ops::Place;

/// Names, each with its place.
pub type Names = Vec<(Spelling, Place)>;

/// A part of a program: an expression, a statement or a block.
#[cycle(phrases)]
#[derive(Drop)]
pub struct Phrase {
    /// The place that its diagnostics name: of its word, its operator or its name. A chain has that of its first token.
    pub place: Place,
    /// The place of its first token. That of an empty phrase is the token behind it.
    pub first: Place,
    /// What it is.
    pub kind: Kind,
}

/// What a phrase is. What takes more than a word stands in a box.
#[cycle(phrases)]
#[derive(Drop)]
pub enum Kind {
    /// Nothing, as between two semicolons.
    Empty,
    /// `NULL`.
    Null,
    /// A number that is written out.
    Number(i32),
    /// `TRUE` or `FALSE`.
    Truth(bool),
    /// Bits that are written out.
    BitsLit(u32),
    /// A string that is written out.
    Quoted(Box<Spelling>),
    /// A short name without lists behind it.
    Named(ShortName),
    /// A short name with one list of actuals behind it.
    Applied(Box<Applied>),
    /// Any other name, and the lists in parentheses behind it.
    Listed(Box<Listed>),
    /// `~` and its operand.
    Negated(Box<Phrase>),
    /// `ABS` and its operand.
    Abs(Box<Phrase>),
    /// A term behind a sign, which is a minus or not.
    Signed(bool, Box<Phrase>),
    /// Operands with operators of one level between them, from left to right.
    Chain(Box<Chain>),
    /// A comparison.
    Relation(Box<Relation>),
    /// Whether a reference is to a record of the class that is named at a place.
    IsClass(Box<ClassTest>),
    /// An assignment.
    Assign(Box<Assignment>),
    /// `IF` with a condition.
    IfThen(Box<Conditional>),
    /// `CASE` with the values to choose from.
    CaseValue(Box<CaseValue>),
    /// `CASE` with the statements to choose from.
    CaseDo(Box<CaseDo>),
    /// `FOR` a control name, from a start to a limit.
    ForStep(Box<ForStep>),
    /// `FOR` a control name with the values that are listed.
    ForList(Box<ForList>),
    /// `WHILE` a condition holds.
    WhileDo(Box<Repetition>),
    /// `GOTO` a label.
    Goto(Box<Spelling>),
    /// `ASSERT` a condition.
    Assert(Box<Phrase>),
    /// A block.
    Block(Box<Block>),
}

/// A short name with one list of subscripts, fields or actuals behind it.
#[cycle(phrases)]
#[derive(Drop)]
pub struct Applied {
    /// The name.
    pub name: ShortName,
    /// The place of the list's opening parenthesis.
    pub place: Place,
    /// The subscripts, fields or actuals.
    pub actuals: Vec<Actual>,
}

/// A name with lists behind it, of which there may be none.
#[cycle(phrases)]
#[derive(Drop)]
pub struct Listed {
    /// The name.
    pub name: Spelling,
    /// The lists in parentheses.
    pub lists: Vec<List>,
}

/// A chain of operands.
#[cycle(phrases)]
#[derive(Drop)]
pub struct Chain {
    /// The first operand.
    pub first: Phrase,
    /// The operators and operands behind it.
    pub links: Vec<Link>,
}

/// A comparison.
#[cycle(phrases)]
#[derive(Drop)]
pub struct Relation {
    /// How it compares.
    pub op: RelOp,
    /// What stands to the left of the operator.
    pub left: Phrase,
    /// What stands to the right of it.
    pub right: Phrase,
}

/// A test of a reference's class.
#[cycle(phrases)]
#[derive(Drop)]
pub struct ClassTest {
    /// The reference.
    pub reference: Phrase,
    /// The class's name, and where that stands.
    pub class: (Spelling, Place),
}

/// An assignment.
#[cycle(phrases)]
#[derive(Drop)]
pub struct Assignment {
    /// What is assigned to.
    pub target: Phrase,
    /// What is assigned.
    pub value: Phrase,
}

/// What is done where a condition holds, and otherwise.
#[cycle(phrases)]
#[derive(Drop)]
pub struct Conditional {
    /// The condition.
    pub condition: Phrase,
    /// What is done where it holds.
    pub then: Phrase,
    /// What is done otherwise, where that is said.
    pub otherwise: Option<Box<Phrase>>,
}

/// A choice of a value.
#[cycle(phrases)]
#[derive(Drop)]
pub struct CaseValue {
    /// Which value it is.
    pub selector: Phrase,
    /// The values.
    pub values: Vec<Phrase>,
}

/// A choice of a statement.
#[cycle(phrases)]
#[derive(Drop)]
pub struct CaseDo {
    /// Which statement it is.
    pub selector: Phrase,
    /// The statements.
    pub parts: Vec<Part>,
}

/// A loop from a start to a limit.
#[cycle(phrases)]
#[derive(Drop)]
pub struct ForStep {
    /// The control name.
    pub name: Spelling,
    /// Its first value.
    pub start: Phrase,
    /// The step, where one is written.
    pub step: Option<Box<Phrase>>,
    /// The limit.
    pub limit: Phrase,
    /// What is done.
    pub body: Phrase,
}

/// A loop over values that are listed.
#[cycle(phrases)]
#[derive(Drop)]
pub struct ForList {
    /// The control name.
    pub name: Spelling,
    /// Its values.
    pub values: Vec<Phrase>,
    /// What is done.
    pub body: Phrase,
}

/// A loop that goes on as long as a condition holds.
#[cycle(phrases)]
#[derive(Drop)]
pub struct Repetition {
    /// The condition.
    pub condition: Phrase,
    /// What is done.
    pub body: Phrase,
}

/// What stands between `BEGIN` and `END`.
#[cycle(phrases)]
#[derive(Drop)]
pub struct Block {
    /// Its declarations.
    pub decls: Vec<Decl>,
    /// Its items.
    pub items: Vec<Item>,
}

/// An operator of a chain and the operand behind it.
#[cycle(phrases)]
#[derive(Drop)]
pub struct Link {
    /// The operator.
    pub op: Op,
    /// The operator's place.
    pub place: Place,
    /// The operand.
    pub right: Phrase,
}

/// A list in parentheses behind a name.
#[cycle(phrases)]
#[derive(Drop)]
pub struct List {
    /// The place of its opening parenthesis.
    pub place: Place,
    /// What it is.
    pub kind: ListKind,
}

/// What a list behind a name is.
#[cycle(phrases)]
#[derive(Drop)]
pub enum ListKind {
    /// Subscripts, fields or actuals.
    Actuals(Vec<Actual>),
    /// A part of a string: the place where it begins, and its length.
    Part(Box<Phrase>, i32),
}

/// A subscript, a field or an actual.
#[cycle(phrases)]
#[derive(Drop)]
pub enum Actual {
    /// `*`, which stands for a whole dimension, at a place.
    Star(Place),
    /// A phrase.
    Phrase(Phrase),
}

/// A phrase that may be missing, as it stands in a row.
#[cycle(phrases)]
#[derive(Drop)]
pub enum Part {
    /// Nothing, before the token at a place, as between two semicolons.
    Empty(Place),
    /// A phrase.
    Phrase(Box<Phrase>),
}

/// A phrase of a block, behind its labels.
#[cycle(phrases)]
#[derive(Drop)]
pub enum Item {
    /// Nothing, without labels, before the token at a place.
    Empty(Place),
    /// A phrase without labels.
    Plain(Box<Phrase>),
    /// A phrase behind its labels.
    Labelled(Box<Labelled>),
}

/// A phrase, and the labels before it.
#[cycle(phrases)]
#[derive(Drop)]
pub struct Labelled {
    /// Its labels.
    pub labels: Names,
    /// The phrase.
    pub phrase: Box<Phrase>,
}

/// A declaration.
#[cycle(phrases)]
#[derive(Drop)]
pub enum Decl {
    /// Simple variables of a type.
    Simple(TypeSpec, Names),
    /// Arrays of a type, with their bounds.
    Array(TypeSpec, Names, Vec<Bound>),
    /// A procedure.
    Proc(ProcDecl),
    /// A record class.
    Class(ClassDecl),
}

/// The bounds of a dimension.
#[cycle(phrases)]
#[derive(Drop)]
pub struct Bound {
    /// The place of `::`.
    pub place: Place,
    /// The lower bound.
    pub lower: Phrase,
    /// The upper bound.
    pub upper: Phrase,
}

/// A procedure.
#[cycle(phrases)]
#[derive(Drop)]
pub struct ProcDecl {
    /// The place of `PROCEDURE`.
    pub place: Place,
    /// The type of its value, where it has one.
    pub result: Option<TypeSpec>,
    /// Its name, and where that stands.
    pub name: (Spelling, Place),
    /// Its formals.
    pub formals: Vec<Formal>,
    /// Its body, which may be empty.
    pub body: Box<Phrase>,
}

/// A record class.
#[derive(Drop)]
pub struct ClassDecl {
    /// Its name, and where that stands.
    pub name: (Spelling, Place),
    /// Its fields, by groups of one type.
    pub groups: Vec<(TypeSpec, Names)>,
}

/// Formals of a procedure that are declared together.
#[derive(Drop)]
pub struct Formal {
    /// Their type, which procedures without a value have none of.
    pub spec: Option<TypeSpec>,
    /// How they are passed.
    pub mode: Mode,
    /// Their names.
    pub names: Names,
    /// How many dimensions they have: none but of arrays.
    pub dimensions: u32,
}

/// How a formal is passed.
#[derive(Clone, Copy, Debug, PartialEq, Eq)]
pub enum Mode {
    /// By name.
    ByName,
    /// `VALUE`.
    Value,
    /// `RESULT`.
    Result,
    /// `VALUE RESULT`.
    ValueResult,
    /// `ARRAY`.
    Array,
    /// `PROCEDURE`.
    Procedure,
}

/// A type as it is written, with the numbers and names in it.
#[derive(Drop)]
pub enum TypeSpec {
    /// `INTEGER`.
    Integer,
    /// `LOGICAL`.
    Logical,
    /// `BITS`, and the number behind it.
    Bits(Option<(i32, Place)>),
    /// `STRING`, and its length.
    Str(Option<(i32, Place)>),
    /// `REFERENCE` to records of these classes.
    Reference(Names),
}

/// An operator of a chain.
#[derive(Clone, Copy, Debug, PartialEq, Eq)]
pub enum Op {
    /// `OR`.
    Or,
    /// `AND`.
    And,
    /// `+`.
    Plus,
    /// `-`.
    Minus,
    /// `*`.
    Times,
    /// `/`.
    Slash,
    /// `DIV`.
    Div,
    /// `REM`.
    Rem,
    /// `SHL`.
    Shl,
    /// `SHR`.
    Shr,
    /// `**`.
    Power,
}

/// An operator of a comparison.
#[derive(Clone, Copy, Debug, PartialEq, Eq)]
pub enum RelOp {
    /// `=`.
    Equal,
    /// `~=`.
    NotEqual,
    /// `<`.
    Less,
    /// `<=`.
    LessEqual,
    /// `>`.
    Greater,
    /// `>=`.
    GreaterEqual,
}
