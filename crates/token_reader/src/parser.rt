ghost use Rattle.std.specs.Prelude.{◌≡◌, suc, None, is_some, IfOk, MatchOption};
ghost use Rattle.algolw_tree.specs.Parts.{follow, is_else};
ghost use Rattle.algolw_tree.specs.Grammar.{empty_at};
ghost use Rattle.algolw_tree.specs.Tree as T;
ghost use Rattle.algolw_tree.specs.View.{empty_tree};
ghost use Rattle.algolw_grammar.specs.Kinds.{opens, has, word_number, the_word, the_symbol, a_name};
ghost use Rattle.algolw_grammar.specs.Readers.{read_empty, read_token, read_deep};
ghost use Rattle.algolw_grammar.specs.Reading.{read_word, read_symbol, read_name, read_number, read_goto, first_phrase, first_goto, first_decl, listing_values};
ghost use Rattle.algolw_grammar.specs.Taken.{is_word, is_symbol, finish_taken, label_taken};
ghost use Rattle.kept_tokens.specs.Kept.{place_at};
ghost use Rattle.token_reader.specs.declared.stop.Stop.TheVariants.{Unexpected, TooDeep};
ghost use Rattle.token_reader.specs.Gives.{Gives, Fails, boxed_tree, label_at, ReadsLabel, ReadsLabels};

use crate::make;
use crate::stop::Stop;
use algolw_tree::{Names, Phrase, Spelling, Symbol, TokenKind, Word};
use kept_tokens::{KeptToken, TokenSort, first_place};
use std::alloc::{AllocError, Global};
use value_ops::Place;

/// What is left to be read. Each method that reads gives what its line of the grammar says, and leaves what stands behind it.
#[derive(Drop)]
pub struct Parser<'a> {
    /// Where the tree is made.
    pub alloc: Global,
    /// The tokens that are left.
    pub rest: &'a [KeptToken],
}

/// Whether a token is this word.
fn is_word(token: &KeptToken, word: Word) -> bool
    ensures { result ≡ is_word word token.now.kind }
{
    match token.sort() {
        TokenSort::Word(found) => found == word,
        _ => false,
    }
}

/// Whether a token is this symbol.
fn is_symbol(token: &KeptToken, symbol: Symbol) -> bool
    ensures { result ≡ is_symbol symbol token.now.kind }
{
    match token.sort() {
        TokenSort::Symbol(found) => found == symbol,
        _ => false,
    }
}

/// Whether this word may begin a phrase.
fn opens_phrase(word: Word) -> bool
    ensures { result ≡ has (word_number word) first_phrase }
{
    matches!(
        word,
        Word::If
            | Word::Case
            | Word::For
            | Word::While
            | Word::Goto
            | Word::Go
            | Word::Assert
            | Word::Abs
            | Word::Begin
            | Word::True
            | Word::False
            | Word::Null
    )
}

impl Parser<'_> {
    /// Whether the next token is this word.
    #[tactic(auto, using(algolw_grammar::proofs::Numbers::word_opens))]
    pub fn at_word(&self, word: Word) -> bool
        ensures { result ≡ opens (the_word word) self.now.rest.now }
    {
        match self.rest {
            [token, ..] => is_word(token, word),
            [] => false,
        }
    }

    /// Whether the next token is this symbol.
    pub fn at_symbol(&self, symbol: Symbol) -> bool
        ensures { result ≡ opens (the_symbol symbol) self.now.rest.now }
    {
        match self.rest {
            [token, ..] => is_symbol(token, symbol),
            [] => false,
        }
    }

    /// Whether the next token is a name.
    pub fn at_name(&self) -> bool
        ensures { result ≡ opens a_name self.now.rest.now }
    {
        match self.rest {
            [token, ..] => matches!(token.sort(), TokenSort::Named),
            [] => false,
        }
    }

    /// Whether the next token may begin a phrase.
    pub fn at_phrase(&self) -> bool
        ensures { result ≡ opens first_phrase self.now.rest.now }
    {
        match self.rest {
            [token, ..] => match token.sort() {
                TokenSort::Word(word) => opens_phrase(word),
                TokenSort::Symbol(symbol) => matches!(
                    symbol,
                    Symbol::Not | Symbol::Plus | Symbol::Minus | Symbol::Open
                ),
                TokenSort::Named
                | TokenSort::Number(_)
                | TokenSort::BitsLit(_)
                | TokenSort::Quoted => true,
                TokenSort::Finish => false,
            },
            [] => false,
        }
    }

    /// Whether the next token is ELSE.
    pub fn at_else(&self) -> bool
        ensures { result ≡ is_else (follow self.now.rest.now None) }
    {
        match self.rest {
            [token, ..] => matches!(token.sort(), TokenSort::Word(Word::Else)),
            [] => false,
        }
    }

    /// Whether a jump begins here.
    pub fn at_goto(&self) -> bool
        ensures { result ≡ opens first_goto self.now.rest.now }
    {
        match self.rest {
            [token, ..] => matches!(token.sort(), TokenSort::Word(Word::Goto | Word::Go)),
            [] => false,
        }
    }

    /// Whether the values of a FOR go on or end here.
    pub fn at_values(&self) -> bool
        ensures { result ≡ opens listing_values self.now.rest.now }
    {
        match self.rest {
            [token, ..] => matches!(
                token.sort(),
                TokenSort::Symbol(Symbol::Comma) | TokenSort::Word(Word::Do)
            ),
            [] => false,
        }
    }

    /// Whether a declaration begins here.
    pub fn at_decl(&self) -> bool
        ensures { result ≡ opens first_decl self.now.rest.now }
    {
        match self.rest {
            [token, ..] => matches!(
                token.sort(),
                TokenSort::Word(
                    Word::Procedure
                        | Word::Record
                        | Word::Integer
                        | Word::Logical
                        | Word::Bits
                        | Word::String
                        | Word::Reference
                )
            ),
            [] => false,
        }
    }

    /// The place of the next token; on no card where there is none.
    pub fn place(&self) -> Place
        ensures { result ≡ place_at self.now.rest.now }
    {
        first_place(self.rest)
    }

    /// The next token doesn't go on.
    pub fn unexpected(&self) -> Stop
        ensures { result ≡ Unexpected (place_at self.now.rest.now) }
    {
        Stop::Unexpected(self.place())
    }

    /// The next token begins nesting beyond the limit.
    pub fn too_deep(&self) -> Stop
        ensures { result ≡ TooDeep (place_at self.now.rest.now) }
    {
        Stop::TooDeep(self.place())
    }

    /// What stands where no level of nesting is left for a phrase.
    pub fn beyond(&self) -> Stop
        ensures { Fails {A = T.Phrase} result (read_deep first_phrase self.now.rest.now) }
    {
        if self.at_phrase() {
            self.too_deep()
        } else {
            self.unexpected()
        }
    }

    /// This word, and its place.
    pub fn expect_word(&mut self, word: Word) -> Result<Place, Stop>
        ensures { Gives (λ x. x) result self.new.rest.now (read_word word self.old.rest.now) }
    {
        match self.rest {
            [token, rest @ ..] if is_word(token, word) => {
                self.rest = rest;
                Ok(token.place())
            }
            _ => Err(self.unexpected()),
        }
    }

    /// This symbol, and its place.
    pub fn expect_symbol(&mut self, symbol: Symbol) -> Result<Place, Stop>
        ensures { Gives (λ x. x) result self.new.rest.now (read_symbol symbol self.old.rest.now) }
    {
        match self.rest {
            [token, rest @ ..] if is_symbol(token, symbol) => {
                self.rest = rest;
                Ok(token.place())
            }
            _ => Err(self.unexpected()),
        }
    }

    /// The end of the deck, and its place.
    pub fn expect_finish(&mut self) -> Result<Place, Stop>
        ensures { Gives (λ x. x) result self.new.rest.now (read_token finish_taken self.old.rest.now) }
    {
        let [token, rest @ ..] = self.rest else {
            return Err(self.unexpected());
        };
        match token.sort() {
            TokenSort::Finish => {
                self.rest = rest;
                Ok(token.place())
            }
            _ => Err(self.unexpected()),
        }
    }

    /// A name, and its place.
    pub fn expect_name(&mut self) -> Result<(Spelling, Place), Stop>
        ensures { Gives (λ x. x) result self.new.rest.now (read_name self.old.rest.now) }
    {
        let [token, rest @ ..] = self.rest else {
            return Err(self.unexpected());
        };
        match token.kind(self.alloc)? {
            TokenKind::Named(name) => {
                self.rest = rest;
                Ok((name, token.place()))
            }
            _ => Err(self.unexpected()),
        }
    }

    /// A number, and its place.
    pub fn expect_number(&mut self) -> Result<(i32, Place), Stop>
        ensures { Gives (λ x. x) result self.new.rest.now (read_number self.old.rest.now) }
    {
        let [token, rest @ ..] = self.rest else {
            return Err(self.unexpected());
        };
        match token.sort() {
            TokenSort::Number(number) => {
                self.rest = rest;
                Ok((number, token.place()))
            }
            _ => Err(self.unexpected()),
        }
    }

    /// The place of an empty phrase, which is that of the token behind it.
    pub fn empty(&self) -> Result<Place, Stop>
        ensures { Gives empty_tree result self.now.rest.now (read_empty empty_at self.now.rest.now) }
    {
        match self.rest {
            [token, ..] => Ok(token.place()),
            [] => Err(self.unexpected()),
        }
    }

    /// `GOTO name | GO TO name`
    #[tactic(auto, unfolding(algolw_grammar::specs::Reading::read_goto))]
    pub fn jump(&mut self) -> Result<Box<Phrase>, Stop>
        ensures { Gives boxed_tree result self.new.rest.now (read_goto self.old.rest.now) }
    {
        if self.at_word(Word::Goto) {
            let first = self.expect_word(Word::Goto)?;
            let label = self.expect_name()?;
            Ok(make::jump(self.alloc, first, label)?)
        } else {
            let first = self.expect_word(Word::Go)?;
            self.expect_word(Word::To)?;
            let label = self.expect_name()?;
            Ok(make::jump(self.alloc, first, label)?)
        }
    }

    /// Whether a label stands here.
    fn at_label(&self) -> bool
        ensures { result ≡ is_some (label_at self.now.rest.now) }
    {
        match self.rest {
            [name, colon, ..] => matches!(name.sort(), TokenSort::Named)
                && is_symbol(colon, Symbol::Colon),
            _ => false,
        }
    }

    /// `name ":"`, where it stands here.
    fn label(&mut self) -> Result<Option<(Spelling, Place)>, AllocError>
        ensures { IfOk result (λ label. ReadsLabel label self.old.rest.now self.new.rest.now) }
    {
        let [name, behind @ ..] = self.rest else {
            return Ok(None);
        };
        let [colon, rest @ ..] = behind else {
            return Ok(None);
        };
        let label = label_of(self.alloc, name, colon)?;
        if label.is_some() {
            self.rest = rest;
        }
        Ok(label)
    }

    /// `{ name ":" }`
    pub fn labels(&mut self) -> Result<Names, Stop>
        ensures { ReadsLabels result self.old.rest.now self.new.rest.now }
    {
        // Where there is one, there are mostly no more.
        let mut labels = Vec::with_capacity(self.alloc, usize::from(self.at_label()))?;
        'turns: while let Some(label) = self.label()? {
            labels.push(label)?;
        }
        Ok(labels)
    }
}

/// How many levels of nesting are left inside one of them, where one is left.
pub fn inside(room: u32) -> Option<u32>
    ensures { MatchOption result (room ≡ 0) (λ left. room ≡ suc left) }
{
    room.checked_sub(1)
}

/// The label that a name and a colon are.
fn label_of(
    alloc: Global,
    name: &KeptToken,
    colon: &KeptToken,
) -> Result<Option<(Spelling, Place)>, AllocError>
    ensures { IfOk result (λ label. label ≡ label_taken name.now colon.now) }
{
    if !is_symbol(colon, Symbol::Colon) {
        return Ok(None);
    }
    match name.kind(alloc)? {
        TokenKind::Named(label) => Ok(Some((label, name.place()))),
        _ => Ok(None),
    }
}
