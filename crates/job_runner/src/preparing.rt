ghost use Rattle.std.specs.Prelude.{◌≡◌, ◌≤◌, ℕ, List, IfOk, length};
ghost use Rattle.algolw_scanner.specs.Laws.{IsDeck};
ghost use Rattle.algolw_tree.specs.Libraries.{wrapped};
ghost use Rattle.algolw_tree.specs.Programs.{IsEnded};
ghost use Rattle.algolw_tree.specs.Tokens.{AreTokens};
ghost use Rattle.algolw_tree.specs.declared.tokens.Token as token;
ghost use Rattle.algolw_meaning.specs.DeckDiagnostics.{IsLibraryFound};
ghost use Rattle.job_runner.specs.Preparing.{judged, library_found};

use algolw_parser::{Parsed, parse};
use algolw_scanner::{Scanned, scan};
use algolw_tree::LIBRARY_PLACE;
use kept_tokens::KeptToken;
use procedure_library::{LibraryTree, as_library, moved, wrap};
use std::alloc::{AllocError, Global};
use value_ops::{Card, Diagnostic};

/// What a library is: its tree, or the one fault of it.
#[derive(Drop)]
pub(crate) enum Found {
    /// Its tree.
    Tree(LibraryTree),
    /// The fault of its tokens, or else of its form as a program, or else that it is no library.
    Bad(Diagnostic),
}

/// What the cards of a library are, and how many tokens they have.
pub(crate) fn find(alloc: Global, cards: &[Card]) -> Result<(Found, usize), AllocError>
    requires deck { IsDeck cards.now }
    requires few { length cards.now ≤ 500 }
    ensures { IfOk result (λ found. IsLibraryFound cards.now (library_found found.0)) }
{
    match scan(alloc, cards)? {
        Scanned::Tokens(tokens) => find_in(alloc, wrap(alloc, tokens.as_slice())?),
        Scanned::Bad(fault) => Ok((Found::Bad(moved(fault)), 0)),
    }
}

/// What the tokens of a library, taken for those of a program, are.
fn find_in(alloc: Global, tokens: Vec<KeptToken>) -> Result<(Found, usize), AllocError>
    requires { IsEnded tokens.items }
    ensures { (cards : List (List ℕ)) (own : List token.Token) → AreTokens cards own → tokens.items ≡ wrapped own
        → IfOk result (λ found. IsLibraryFound cards (library_found found.0)) }
{
    match parse(alloc, tokens.as_slice())? {
        Parsed::Tree(program) => Ok((judge(as_library(program)), tokens.len())),
        Parsed::Bad(fault) => Ok((Found::Bad(fault), tokens.len())),
    }
}

/// What a library is by its tree, of which there is none where the program is no library.
fn judge(tree: Option<LibraryTree>) -> Found
    ensures { result ≡ judged tree }
{
    match tree {
        Some(tree) => Found::Tree(tree),
        None => Found::Bad(Diagnostic {
            place: LIBRARY_PLACE,
            number: Diagnostic::NOT_A_LIBRARY,
        }),
    }
}
