ghost use Rattle.std.specs.Prelude.{◌≡◌, IfOk};
ghost use Rattle.algolw_tree.specs.Programs.{IsEnded};
ghost use Rattle.algolw_tree.specs.View.{tree};
ghost use Rattle.algolw_grammar.specs.Reading.{read_program};
ghost use Rattle.token_reader.specs.Gives.{Gives, boxed_tree};
ghost use Rattle.algolw_parser.specs.declared.parsing.Parsed.TheVariants.{Bad};
ghost use Rattle.algolw_parser.specs.Parsed.{Means, Reads};

use crate::phrases::block;
use algolw_tree::{Phrase, Symbol};
use kept_tokens::KeptToken;
use std::alloc::{AllocError, Global};
use token_reader::{Parser, Stop};
use value_ops::{Diagnostic, Place};

/// How deep a program may nest, of which its block is the first level.
const MOST_NESTING: u32 = 100;

/// What parsing tokens gives.
#[derive(Drop)]
pub enum Parsed {
    /// The program that they spell.
    Tree(Phrase),
    /// The first token with which they begin no program, with number 20, or that begins nesting 101, with number 21.
    Bad(Diagnostic),
}

/// `block [ "." ] end-of-deck`
#[tactic(auto, unfolding(algolw_grammar::specs::Reading::read_program_by))]
fn program(parser: &mut Parser<'_>) -> Result<Box<Phrase>, Stop>
    ensures { Gives boxed_tree result parser.new.rest.now (read_program parser.old.rest.now) }
{
    let block = block(parser, room())?;
    if parser.at_symbol(Symbol::Stop) {
        parser.expect_symbol(Symbol::Stop)?;
        parser.expect_finish()?;
        Ok(block)
    } else {
        parser.expect_finish()?;
        Ok(block)
    }
}

/// How many levels may nest in the program's block.
fn room() -> u32
    ensures { result ≡ 99 }
{
    MOST_NESTING - 1
}

/// A diagnostic with this number, at the place of a token.
fn bad(number: u8, place: Place) -> Parsed
    ensures { result ≡ Bad (record { number = number; place = place }) }
{
    Parsed::Bad(Diagnostic { number, place })
}

/// The program that a deck's tokens spell, of which the last is the end of the deck. Otherwise diagnostic 20 names the
/// first token with which they begin no program, or 21 the first one that begins nesting 101, whichever is earlier.
pub fn parse(alloc: Global, tokens: &[KeptToken]) -> Result<Parsed, AllocError>
    requires { IsEnded tokens.now }
    ensures means { IfOk result (λ p. Means tokens.now p) }
    ensures reads { IfOk result (λ p. Reads tokens.now p) }
{
    let mut parser = Parser {
        alloc,
        rest: tokens,
    };
    match program(&mut parser) {
        Ok(program) if parser.rest.is_empty() => Ok(Parsed::Tree(Box::into_inner(program))),
        Ok(_) => Ok(bad(Diagnostic::NOT_EXPECTED_HERE, parser.place())),
        Err(Stop::Memory) => Err(AllocError),
        Err(Stop::Unexpected(place)) => Ok(bad(Diagnostic::NOT_EXPECTED_HERE, place)),
        Err(Stop::TooDeep(place)) => Ok(bad(Diagnostic::NESTING_OVER_100, place)),
    }
}
