ghost use Rattle.std.specs.Prelude.{ℕ, List, ◌≡◌, ◌≤◌, ◌++◌, length, IfOk, OnOk, IsTrue};
ghost use Rattle.std.specs.List.{list_all};
ghost use Rattle.algolw_tree.specs.Tokens.{is_name, is_end, text, origin};
ghost use Rattle.algolw_tree.specs.Tokens.{AreTokens, IsFault};
ghost use Rattle.algolw_tree.specs.declared.tokens.Token.{Token};
ghost use Rattle.value_ops.specs.declared.places.Diagnostic.{Diagnostic};
ghost use Rattle.algolw_scanner.specs.Cursors.{Sound, AreClean, text_at};
ghost use Rattle.algolw_scanner.specs.Laws.{IsDeck, IsScanOf, IsOnlyScanOf, IsOfDeck};
ghost use Rattle.algolw_scanner.specs.Scans.{kept_one, Says, reading};
ghost use Rattle.algolw_scanner.specs.Decks.{scanned};

use crate::cursor::{Cursor, Next};
use algolw_tree::{Token, TokenKind, Word};
use kept_tokens::KeptToken;
use std::alloc::{AllocError, Global};
use value_ops::{Card, Diagnostic, Place};

/// For how many tokens of a card there is room from the first on. Doubled four times it is as many as a card has characters,
/// so that the room that a vector of tokens grows to is no more than the most tokens of the cards take.
const TOKENS_OF_CARD: usize = 5;

/// What scanning a deck gives.
#[derive(Drop)]
pub enum Scanned {
    /// Its tokens, of which the last is the end of the deck.
    Tokens(Vec<KeptToken>),
    /// The first place that begins no token, with a number from 10 to 16.
    Bad(Diagnostic),
}

/// Whether a token is a name.
fn is_name(kind: &TokenKind) -> bool
    ensures { result ≡ is_name kind.now }
{
    matches!(kind, TokenKind::Named(_))
}

/// Whether a token is the word END.
fn is_end(kind: &TokenKind) -> bool
    ensures { result ≡ is_end kind.now }
{
    matches!(kind, TokenKind::Word(Word::End))
}

/// Keeps the token behind the others, unless it is a name directly after END.
#[inline(always)]
fn keep(
    alloc: Global,
    tokens: &mut Vec<KeptToken>,
    after_end: bool,
    token: Token,
) -> Result<(), AllocError>
    ensures { OnOk result (tokens.new.items ≡ tokens.old.items ++ kept_one after_end token) }
{
    if after_end && is_name(&token.kind) {
        return Ok(());
    }
    tokens.push(KeptToken::new(alloc, token)?)?;
    Ok(())
}

/// The tokens from here on.
fn tokens_from(alloc: Global, start: Cursor) -> Result<Scanned, AllocError>
    requires { Sound start }
    ensures { IfOk result (λ s. Says start.entry.place (text_at start.entry) s) }
{
    let cards = 1 + start.later.len();
    let mut tokens = Vec::with_capacity(alloc, 1 + TOKENS_OF_CARD * cards)?;
    let mut after_end = false;
    let mut cursor = start;
    'pieces: loop {
        let mut kind = TokenKind::Finish;
        let piece = cursor.next_piece(alloc, &mut kind)?;
        match piece {
            Next::Token(next) => {
                let ends = is_end(&kind);
                let token = Token {
                    place: cursor.place,
                    kind,
                };
                keep(alloc, &mut tokens, after_end, token)?;
                after_end = ends;
                cursor = next;
            }
            Next::Skipped(next) => cursor = next,
            Next::Finished(place) => {
                let token = Token {
                    place,
                    kind: TokenKind::Finish,
                };
                keep(alloc, &mut tokens, after_end, token)?;
                return Ok(Scanned::Tokens(tokens));
            }
            Next::Fault(diagnostic) => return Ok(Scanned::Bad(diagnostic)),
        }
    }
}

/// The tokens of a deck, or the first place that begins none. The last token is the end of the deck, and no other is;
/// the others are on its cards; each is before the next; there are at most 160,001.
pub fn scan(alloc: Global, deck: &[Card]) -> Result<Scanned, AllocError>
    requires { IsDeck deck.now }
    ensures said { IfOk result (λ s. IsScanOf deck.now s) }
    ensures only { IfOk result (λ s. IsOnlyScanOf deck.now s) }
    ensures placed { IfOk result (λ s. IsOfDeck deck.now s) }
    ensures read { IfOk result (λ s. reading s ≡ scanned deck.now) }
{
    deck_tokens(alloc, deck)
}

/// What the deck's text gives.
fn deck_tokens(alloc: Global, deck: &[Card]) -> Result<Scanned, AllocError>
    requires few { length deck.now ≤ 2000 }
    requires clean { AreClean deck.now }
    ensures { IfOk result (λ s. Says origin (text deck.now) s) }
{
    let place = Place { card: 1, column: 1 };
    match deck {
        [] => {
            let token = Token {
                place,
                kind: TokenKind::Finish,
            };
            Ok(Scanned::Tokens(vec![in alloc; KeptToken::new(alloc, token)?]?))
        }
        [first, later @ ..] => tokens_from(
            alloc,
            Cursor {
                line: first.as_slice(),
                later,
                place,
            },
        ),
    }
}
