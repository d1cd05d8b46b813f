ghost use Rattle.std.specs.Prelude.{◌≡◌, ◌≤◌, ◌++◌, ◌∷◌, [], true, map, IfOk, OnOk};
ghost use Rattle.std.specs.List.{list_all};
ghost use Rattle.algolw_tree.specs.Libraries.{is_early, moved, moved_place, moved_token, wrapped};

use algolw_tree::{LIBRARY_PLACE, MOST_DECK_CARDS, Token, TokenKind, Word};
use kept_tokens::KeptToken;
use std::alloc::{AllocError, Global};
use value_ops::{Diagnostic, Place};

/// The tokens of a library as those of a program: `BEGIN`, the tokens of its cards, `END`, and the end. They stand on cards
/// behind those of a deck. A library has at most 500 cards, so that no token is on a card past 501.
pub fn wrap(alloc: Global, tokens: &[KeptToken]) -> Result<Vec<KeptToken>, AllocError>
    requires { list_all is_early tokens.now ≡ true }
    ensures { IfOk result (λ program. program.items ≡ wrapped tokens.now) }
{
    let mut program = Vec::with_capacity(alloc, tokens.len().saturating_add(2))?;
    let begin = TokenKind::Word(Word::Begin);
    push(alloc, &mut program, LIBRARY_PLACE, begin)?;
    let Some((finish, front)) = tokens.split_last() else {
        return Ok(program);
    };
    push_moved(alloc, &mut program, front)?;
    let place = moved_place(finish.place());
    push(alloc, &mut program, place, TokenKind::Word(Word::End))?;
    push(alloc, &mut program, place, TokenKind::Finish)?;
    Ok(program)
}

/// A fault of a library's tokens, at its place in the program. It is on none of its cards past 501.
pub fn moved(fault: Diagnostic) -> Diagnostic
    requires { fault.place.card ≤ 501 }
    ensures { result ≡ moved fault }
{
    Diagnostic {
        place: moved_place(fault.place),
        number: fault.number,
    }
}

/// A place of a library's cards, behind the cards of a deck.
fn moved_place(place: Place) -> Place
    requires { place.card ≤ 501 }
    ensures { result ≡ moved_place place }
{
    Place {
        card: MOST_DECK_CARDS + place.card,
        column: place.column,
    }
}

/// Adds the tokens, moved behind the cards of a deck.
fn push_moved(
    alloc: Global,
    program: &mut Vec<KeptToken>,
    tokens: &[KeptToken],
) -> Result<(), AllocError>
    requires { list_all is_early tokens.now ≡ true }
    ensures { OnOk result (program.new.items ≡ program.old.items ++ map moved_token tokens.now) }
{
    for token in tokens {
        let kind = token.kind(alloc)?;
        push(alloc, program, moved_place(token.place()), kind)?;
    }
    Ok(())
}

/// Adds a token.
fn push(
    alloc: Global,
    program: &mut Vec<KeptToken>,
    place: Place,
    kind: TokenKind,
) -> Result<(), AllocError>
    ensures { OnOk result (program.new.items ≡ program.old.items ++ record { place = place; kind = kind } ∷ []) }
{
    program.push(KeptToken::new(alloc, Token { place, kind })?)?;
    Ok(())
}
