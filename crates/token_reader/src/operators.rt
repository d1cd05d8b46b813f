ghost use Rattle.std.specs.Prelude.{◌≡◌};
ghost use Rattle.algolw_tree.specs.Grammar.{op_at};
ghost use Rattle.algolw_tree.specs.View.{tree};
ghost use Rattle.algolw_grammar.specs.Kinds.{opens};
ghost use Rattle.algolw_grammar.specs.Readers.{read_made};
ghost use Rattle.algolw_grammar.specs.Reading.{comparing, read_word, read_symbol, read_relop, read_literal};
ghost use Rattle.token_reader.specs.Gives.{Gives};
ghost use Rattle.token_reader.specs.Levels.{operators, read_operator};

use crate::make::at;
use crate::parser::Parser;
use crate::stop::Stop;
use algolw_tree::{Kind, Op, Phrase, RelOp, Symbol, TokenKind, Word};
use kept_tokens::TokenSort;
use value_ops::Place;

/// A level of operators that are chained, from those that bind least on.
#[derive(Clone, Copy, PartialEq, Eq)]
pub enum Level {
    /// `OR`.
    Or,
    /// `AND`.
    And,
    /// `+` and `-`.
    Sum,
    /// `*`, `/`, `DIV` and `REM`.
    Term,
    /// `SHL`, `SHR` and `**`.
    Shift,
}

impl Parser<'_> {
    /// Whether the next token is an operator of this level.
    pub fn at_operator(&self, level: Level) -> bool
        ensures { result ≡ opens (operators level) self.now.rest.now }
    {
        match self.rest {
            [token, ..] => match level {
                Level::Or => matches!(token.sort(), TokenSort::Word(Word::Or)),
                Level::And => matches!(token.sort(), TokenSort::Word(Word::And)),
                Level::Sum => matches!(
                    token.sort(),
                    TokenSort::Symbol(Symbol::Plus | Symbol::Minus)
                ),
                Level::Term => matches!(
                    token.sort(),
                    TokenSort::Symbol(Symbol::Star | Symbol::Slash)
                        | TokenSort::Word(Word::Div | Word::Rem)
                ),
                Level::Shift => matches!(
                    token.sort(),
                    TokenSort::Word(Word::Shl | Word::Shr) | TokenSort::Symbol(Symbol::Power)
                ),
            },
            [] => false,
        }
    }

    /// An operator of this level, and its place.
    #[tactic(auto, unfolding(algolw_grammar::specs::Reading::read_or, algolw_grammar::specs::Reading::read_and, algolw_grammar::specs::Reading::read_adding, algolw_grammar::specs::Reading::read_multiplying, algolw_grammar::specs::Reading::read_shifting))]
    pub fn operator(&mut self, level: Level) -> Result<(Op, Place), Stop>
        ensures { Gives (λ x. x) result self.new.rest.now (read_operator level self.old.rest.now) }
    {
        match level {
            Level::Or => self.word_as(Word::Or, Op::Or),
            Level::And => self.word_as(Word::And, Op::And),
            Level::Sum if self.at_symbol(Symbol::Plus) => self.symbol_as(Symbol::Plus, Op::Plus),
            Level::Sum => self.symbol_as(Symbol::Minus, Op::Minus),
            Level::Term if self.at_symbol(Symbol::Star) => self.symbol_as(Symbol::Star, Op::Times),
            Level::Term if self.at_symbol(Symbol::Slash) => self.symbol_as(
                Symbol::Slash,
                Op::Slash,
            ),
            Level::Term if self.at_word(Word::Div) => self.word_as(Word::Div, Op::Div),
            Level::Term => self.word_as(Word::Rem, Op::Rem),
            Level::Shift if self.at_word(Word::Shl) => self.word_as(Word::Shl, Op::Shl),
            Level::Shift if self.at_word(Word::Shr) => self.word_as(Word::Shr, Op::Shr),
            Level::Shift => self.symbol_as(Symbol::Power, Op::Power),
        }
    }

    /// A word that is an operator, and its place.
    fn word_as(&mut self, word: Word, op: Op) -> Result<(Op, Place), Stop>
        ensures { Gives (λ x. x) result self.new.rest.now
            (read_made (op_at op) (read_word word) self.old.rest.now) }
    {
        Ok((op, self.expect_word(word)?))
    }

    /// A symbol that is an operator, and its place.
    fn symbol_as(&mut self, symbol: Symbol, op: Op) -> Result<(Op, Place), Stop>
        ensures { Gives (λ x. x) result self.new.rest.now
            (read_made (op_at op) (read_symbol symbol) self.old.rest.now) }
    {
        Ok((op, self.expect_symbol(symbol)?))
    }

    /// Whether the next token compares.
    pub fn at_comparison(&self) -> bool
        ensures { result ≡ opens comparing self.now.rest.now }
    {
        match self.rest {
            [token, ..] => matches!(
                token.sort(),
                TokenSort::Symbol(
                    Symbol::Equal
                        | Symbol::NotEqual
                        | Symbol::Less
                        | Symbol::LessEqual
                        | Symbol::Greater
                        | Symbol::GreaterEqual
                )
            ),
            [] => false,
        }
    }

    /// An operator that compares, and its place.
    #[tactic(auto, unfolding(algolw_grammar::specs::Reading::read_relop))]
    pub fn comparison(&mut self) -> Result<(RelOp, Place), Stop>
        ensures { Gives (λ x. x) result self.new.rest.now (read_relop self.old.rest.now) }
    {
        let [token, rest @ ..] = self.rest else {
            return Err(self.unexpected());
        };
        let op = match token.sort() {
            TokenSort::Symbol(Symbol::Equal) => RelOp::Equal,
            TokenSort::Symbol(Symbol::NotEqual) => RelOp::NotEqual,
            TokenSort::Symbol(Symbol::Less) => RelOp::Less,
            TokenSort::Symbol(Symbol::LessEqual) => RelOp::LessEqual,
            TokenSort::Symbol(Symbol::Greater) => RelOp::Greater,
            TokenSort::Symbol(Symbol::GreaterEqual) => RelOp::GreaterEqual,
            _ => return Err(self.unexpected()),
        };
        self.rest = rest;
        Ok((op, token.place()))
    }

    /// A value that is written out.
    #[tactic(auto, unfolding(algolw_grammar::specs::Reading::read_literal))]
    pub fn literal(&mut self) -> Result<Phrase, Stop>
        ensures { Gives tree result self.new.rest.now (read_literal self.old.rest.now) }
    {
        let [token, rest @ ..] = self.rest else {
            return Err(self.unexpected());
        };
        let kind = match token.kind(self.alloc)? {
            TokenKind::Number(number) => Kind::Number(number),
            TokenKind::BitsLit(bits) => Kind::BitsLit(bits),
            TokenKind::Quoted(text) => Kind::Quoted(Box::new(self.alloc, text)?),
            TokenKind::Word(Word::True) => Kind::Truth(true),
            TokenKind::Word(Word::False) => Kind::Truth(false),
            TokenKind::Word(Word::Null) => Kind::Null,
            _ => return Err(self.unexpected()),
        };
        self.rest = rest;
        Ok(at(token.place(), kind))
    }
}
