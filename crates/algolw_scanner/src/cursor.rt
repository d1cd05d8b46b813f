ghost use Rattle.std.specs.Prelude.{◌≡◌, ℕ, ◌+◌, ◌-◌, ◌<◌, ◌≤◌, List, [], ◌∷◌, ◌++◌, length, IfOk};
ghost use Rattle.algolw_scanner.specs.Cursors.{Sound, Behind, IsNextCard, BehindSemicolon, IsNext};

use crate::lexeme::{Lexeme, front};
use algolw_tree::TokenKind;
use std::alloc::{AllocError, Global};
use value_ops::{Card, Diagnostic, Place};

/// A place in a deck, with the rest of its card and the later cards.
#[derive(Clone, Copy)]
pub struct Cursor<'a> {
    /// What is left of the card.
    pub line: &'a [u8],
    /// The cards behind it.
    pub later: &'a [Card],
    /// Where the cursor stands.
    pub place: Place,
}

/// The next piece of a deck's text, and where the text goes on.
pub enum Next<'a> {
    /// A token, whose kind is written down apart.
    Token(Cursor<'a>),
    /// A blank, a card's end or a comment.
    Skipped(Cursor<'a>),
    /// The end of the deck, which is a token at this place.
    Finished(Place),
    /// No piece begins here.
    Fault(Diagnostic),
}

impl<'a> Cursor<'a> {
    /// The same card with this much left of it.
    fn past(self, rest: &'a [u8]) -> Cursor<'a>
        requires left { length rest.now ≤ length self.line.now }
        requires sound { Sound self }
        ensures { (u : List ℕ) → self.entry.line.now ≡ u ++ rest.now → Behind self.entry u result }
    {
        let width = self.line.len() - rest.len();
        Cursor {
            line: rest,
            later: self.later,
            place: Place {
                card: self.place.card,
                column: self.place.column + width as u8,
            },
        }
    }

    /// The beginning of the next card, from the end of a card.
    fn next_card(self) -> Option<Cursor<'a>>
        requires end { self.line.now ≡ [] }
        requires sound { Sound self }
        ensures { IsNextCard self.entry result }
    {
        match self.later {
            [] => None,
            [next, later @ ..] => Some(Cursor {
                line: next.as_slice(),
                later,
                place: Place {
                    card: self.place.card + 1,
                    column: 1,
                },
            }),
        }
    }

    /// Behind the first semicolon, if there is one.
    fn after_semicolon(self) -> Option<Cursor<'a>>
        requires { Sound self }
        ensures { BehindSemicolon self.entry result }
    {
        let mut cursor = self;
        loop {
            match cursor.line {
                [c, rest @ ..] => {
                    let next = cursor.past(rest);
                    if *c == b';' {
                        return Some(next);
                    }
                    cursor = next;
                }
                [] => match cursor.next_card() {
                    None => return None,
                    Some(next) => cursor = next,
                },
            }
        }
    }

    /// The next piece of the text. Where it is a token, its kind is written down.
    pub fn next_piece(self, alloc: Global, kind: &mut TokenKind) -> Result<Next<'a>, AllocError>
        requires { Sound self }
        ensures { IfOk result (λ next. IsNext self.entry kind.new next) }
    {
        if self.line.is_empty() {
            return match self.next_card() {
                None => Ok(Next::Finished(Place {
                    card: self.place.card + 1,
                    column: 1,
                })),
                Some(next) => Ok(Next::Skipped(next)),
            };
        }
        let found = front(alloc, self.line, kind)?;
        match found {
            Lexeme::Blank(rest) => Ok(Next::Skipped(self.past(rest))),
            Lexeme::Token(rest) => Ok(Next::Token(self.past(rest))),
            Lexeme::Fault(number) => Ok(Next::Fault(Diagnostic {
                number,
                place: self.place,
            })),
            Lexeme::Comment(rest) => match self.past(rest).after_semicolon() {
                None => Ok(Next::Fault(Diagnostic {
                    number: Diagnostic::COMMENT_NOT_CLOSED,
                    place: self.place,
                })),
                Some(next) => Ok(Next::Skipped(next)),
            },
        }
    }
}
