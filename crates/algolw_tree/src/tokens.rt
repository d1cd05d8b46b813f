use crate::spelling::Spelling;
use short_text::Short;
use value_ops::Place;

/// A string that is written out, without its quotes. It stands on one card, so it has at most 80 characters.
pub type Literal = Short<80>;

/// A word that is no name.
#[derive(Clone, Copy, Debug, PartialEq, Eq)]
pub enum Word {
    Abs,
    Algol,
    And,
    Array,
    Assert,
    Begin,
    Bits,
    Case,
    Comment,
    Complex,
    Div,
    Do,
    Else,
    End,
    False,
    For,
    Fortran,
    Go,
    Goto,
    If,
    Integer,
    Is,
    Logical,
    Long,
    Null,
    Of,
    Or,
    Procedure,
    Real,
    Record,
    Reference,
    Rem,
    Result,
    Shl,
    Shr,
    Short,
    Step,
    String,
    Then,
    To,
    True,
    Until,
    Value,
    While,
}

/// A symbol.
#[derive(Clone, Copy, Debug, PartialEq, Eq)]
pub enum Symbol {
    /// `(`
    Open,
    /// `)`
    Close,
    /// `,`
    Comma,
    /// `;`
    Semicolon,
    /// `:`
    Colon,
    /// `=`
    Equal,
    /// `<`
    Less,
    /// `>`
    Greater,
    /// `+`
    Plus,
    /// `-`
    Minus,
    /// `*`
    Star,
    /// `/`
    Slash,
    /// `|`
    Bar,
    /// `.`
    Stop,
    /// `~`
    Not,
    /// `:=`
    Becomes,
    /// `::`
    Bounds,
    /// `~=`
    NotEqual,
    /// `<=`
    LessEqual,
    /// `>=`
    GreaterEqual,
    /// `**`
    Power,
}

/// What a token is.
#[derive(Drop)]
pub enum TokenKind {
    /// A word that is no name.
    Word(Word),
    /// A name, in capitals.
    Named(Spelling),
    /// A number, at most 2147483647.
    Number(i32),
    /// Bits that are written out.
    BitsLit(u32),
    /// A string that is written out, without its quotes.
    Quoted(Spelling),
    /// A symbol.
    Symbol(Symbol),
    /// The end of the deck.
    Finish,
}

/// A token, and where it begins.
#[derive(Drop)]
pub struct Token {
    /// Where it begins.
    pub place: Place,
    /// What it is.
    pub kind: TokenKind,
}
