ghost use Rattle.std.specs.Prelude.{◌≡◌, IfOk};
ghost use Rattle.algolw_tree.specs.declared.tokens.TokenKind.TheVariants.{Named, Quoted};
ghost use Rattle.kept_tokens.specs.Kept.{place_at, token_of, IsSortOf};

use algolw_tree::{ShortName, Spelling, Symbol, Token, TokenKind, Word};
use std::alloc::{AllocError, Global};
use std::marker::Model;
use std::mem::size_of;
use value_ops::Place;

/// A token as it is kept, and where it begins: a dense deck has a token for each of its characters, so it is small. Clauses
/// see the token.
#[derive(Drop)]
pub struct KeptToken {
    held: Held,
}

/// A token, in 16 bytes: its place stands between the tag and what else there is. Strings and longer names stand apart.
#[derive(Drop)]
enum Held {
    Word(Place, Word),
    ShortName(Place, ShortName),
    LongName(Place, Box<Spelling>),
    Number(Place, i32),
    BitsLit(Place, u32),
    Quoted(Place, Box<Spelling>),
    Symbol(Place, Symbol),
    Finish(Place),
}

const _: () = prove!(size_of::<KeptToken>() == 16);

/// What sort of token it is: all that its kind says, but for how a name or a string is spelled.
#[derive(Clone, Copy)]
pub enum TokenSort {
    /// A word that is no name.
    Word(Word),
    /// A name.
    Named,
    /// A number.
    Number(i32),
    /// Bits that are written out.
    BitsLit(u32),
    /// A string that is written out.
    Quoted,
    /// A symbol.
    Symbol(Symbol),
    /// The end of the deck.
    Finish,
}

impl Model for KeptToken {
    ghost use Rattle.algolw_tree.specs.declared.tokens.Token.{Token};

    ghost Value = { Token };

    ghost use Rattle.kept_tokens.specs.Kept.{kept_token};

    ghost view = { kept_token };
}

impl KeptToken {
    /// Keeps this token.
    #[inline(always)]
    pub fn new(alloc: Global, token: Token) -> Result<KeptToken, AllocError>
        ensures { IfOk result (λ kept. kept ≡ token) }
    {
        let held = keep(alloc, token.place, token.kind)?;
        Ok(KeptToken { held })
    }

    /// Where it begins.
    pub fn place(&self) -> Place
        ensures { result ≡ self.now.place }
    {
        match &self.held {
            Held::Word(place, _)
            | Held::ShortName(place, _)
            | Held::LongName(place, _)
            | Held::Number(place, _)
            | Held::BitsLit(place, _)
            | Held::Quoted(place, _)
            | Held::Symbol(place, _)
            | Held::Finish(place) => *place,
        }
    }

    /// What sort of token it is.
    pub fn sort(&self) -> TokenSort
        ensures { IsSortOf result self.now.kind }
    {
        match &self.held {
            Held::Word(_, word) => TokenSort::Word(*word),
            Held::ShortName(_, _) | Held::LongName(_, _) => TokenSort::Named,
            Held::Number(_, number) => TokenSort::Number(*number),
            Held::BitsLit(_, bits) => TokenSort::BitsLit(*bits),
            Held::Quoted(_, _) => TokenSort::Quoted,
            Held::Symbol(_, symbol) => TokenSort::Symbol(*symbol),
            Held::Finish(_) => TokenSort::Finish,
        }
    }

    /// What it is.
    pub fn kind(&self, alloc: Global) -> Result<TokenKind, AllocError>
        ensures { IfOk result (λ kind. kind ≡ self.now.kind) }
    {
        match &self.held {
            Held::Word(_, word) => Ok(TokenKind::Word(*word)),
            Held::ShortName(_, name) => Ok(TokenKind::Named(name.spelling())),
            Held::LongName(_, name) => named(alloc, name),
            Held::Number(_, number) => Ok(TokenKind::Number(*number)),
            Held::BitsLit(_, bits) => Ok(TokenKind::BitsLit(*bits)),
            Held::Quoted(_, text) => quoted(alloc, text),
            Held::Symbol(_, symbol) => Ok(TokenKind::Symbol(*symbol)),
            Held::Finish(_) => Ok(TokenKind::Finish),
        }
    }
}

/// Where the first of the tokens begins; on no card where there is none.
pub fn first_place(tokens: &[KeptToken]) -> Place
    ensures { result ≡ place_at tokens.now }
{
    match tokens {
        [token, ..] => token.place(),
        [] => Place { card: 0, column: 0 },
    }
}

/// How a token of this kind, which begins at this place, is held.
fn keep(alloc: Global, place: Place, kind: TokenKind) -> Result<Held, AllocError>
    ensures { IfOk result (λ held. token_of held ≡ record { place = place; kind = kind }) }
{
    match kind {
        TokenKind::Word(word) => Ok(Held::Word(place, word)),
        TokenKind::Named(name) => keep_name(alloc, place, name),
        TokenKind::Number(number) => Ok(Held::Number(place, number)),
        TokenKind::BitsLit(bits) => Ok(Held::BitsLit(place, bits)),
        TokenKind::Quoted(text) => keep_string(alloc, place, text),
        TokenKind::Symbol(symbol) => Ok(Held::Symbol(place, symbol)),
        TokenKind::Finish => Ok(Held::Finish(place)),
    }
}

/// How a name is held.
fn keep_name(alloc: Global, place: Place, name: Spelling) -> Result<Held, AllocError>
    ensures { IfOk result (λ held. token_of held ≡ record { place = place; kind = Named name }) }
{
    match ShortName::new(&name) {
        Some(short) => Ok(Held::ShortName(place, short)),
        None => Ok(Held::LongName(place, Box::new(alloc, name)?)),
    }
}

/// How a string is held.
fn keep_string(alloc: Global, place: Place, text: Spelling) -> Result<Held, AllocError>
    ensures { IfOk result (λ held. token_of held ≡ record { place = place; kind = Quoted text }) }
{
    Ok(Held::Quoted(place, Box::new(alloc, text)?))
}

/// The kind of a token that is this name.
fn named(alloc: Global, name: &Spelling) -> Result<TokenKind, AllocError>
    ensures { IfOk result (λ kind. kind ≡ Named name.now) }
{
    Ok(TokenKind::Named(name.copied(alloc)?))
}

/// The kind of a token that is this string.
fn quoted(alloc: Global, text: &Spelling) -> Result<TokenKind, AllocError>
    ensures { IfOk result (λ kind. kind ≡ Quoted text.now) }
{
    Ok(TokenKind::Quoted(text.copied(alloc)?))
}
