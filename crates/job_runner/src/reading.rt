ghost use Rattle.std.specs.Prelude.{ℕ, List, IfOk};
ghost use Rattle.algolw_scanner.specs.Laws.{IsDeck};
ghost use Rattle.algolw_tree.specs.Programs.{IsEnded};
ghost use Rattle.algolw_tree.specs.Tokens.{AreTokens};
ghost use Rattle.algolw_meaning.specs.DeckDiagnostics.{IsFound};
ghost use Rattle.job_runner.specs.Reading.{deck_read};

use algolw_parser::{Parsed, parse};
use algolw_scanner::{Scanned, scan};
use algolw_tree::Phrase;
use kept_tokens::KeptToken;
use std::alloc::{AllocError, Global};
use value_ops::{Card, Diagnostic};

/// What a deck is.
#[derive(Drop)]
pub(crate) enum Read {
    /// The program that its tokens spell, and how many these are.
    Tree(Phrase, usize),
    /// The fault of its tokens, or else of its form.
    Bad(Diagnostic),
}

/// Scans and parses a deck. Its tokens are gone then.
pub(crate) fn read_deck(alloc: Global, deck: &[Card]) -> Result<Read, AllocError>
    requires { IsDeck deck.now }
    ensures { IfOk result (λ read. IsFound deck.now (deck_read read)) }
{
    match scan(alloc, deck)? {
        Scanned::Tokens(tokens) => read_tokens(alloc, tokens),
        Scanned::Bad(fault) => Ok(Read::Bad(fault)),
    }
}

/// Parses the tokens of a deck.
fn read_tokens(alloc: Global, tokens: Vec<KeptToken>) -> Result<Read, AllocError>
    requires { IsEnded tokens.items }
    ensures { (deck : List (List ℕ)) → AreTokens deck tokens.items → IfOk result (λ read. IsFound deck (deck_read read)) }
{
    match parse(alloc, tokens.as_slice())? {
        Parsed::Tree(phrase) => Ok(Read::Tree(phrase, tokens.len())),
        Parsed::Bad(fault) => Ok(Read::Bad(fault)),
    }
}
