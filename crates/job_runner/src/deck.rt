ghost use Rattle.std.specs.Prelude.{◌≡◌, ◌≤◌, ℕ, List, Option, Some, None, IfOk, length};
ghost use Rattle.std.specs.Option.{option_map};
ghost use Rattle.deck_reader.specs.Shelves.{held};
ghost use Rattle.algolw_scanner.specs.Laws.{IsDeck};
ghost use Rattle.algolw_tree.specs.Libraries.{composed};
ghost use Rattle.algolw_tree.specs.Tree as spelled;
ghost use Rattle.algolw_tree.specs.View.{tree};
ghost use Rattle.procedure_library.specs.Views.{library_tree};
ghost use Rattle.algolw_meaning.specs.DeckDiagnostics.{HasLibrary, HasProgram, JobHasFault, JobHasProgram};
ghost use Rattle.deck_programs.specs.Laws.{StandsBefore};
ghost use Rattle.type_checker.specs.Says.{Says};
ghost use Rattle.job_runner.specs.Compiled.{CompilesTo};

use crate::preparing::Found;
use crate::reading::{Read, read_deck};
use crate::shelf::{Prepared, Shelf};
use algolw_tree::{Item, Kind, Phrase, Whole};
use deck_reader::Library;
use procedure_library::{LibraryTree, compose};
use stack_code::Code;
use stack_codegen::compile;
use std::alloc::{AllocError, Global};
use std::sync::Arc;
use type_checker::{Checked, check};
use value_ops::{Card, Diagnostic};

/// What a deck compiles to.
#[derive(Drop)]
pub enum Compiled {
    /// The code of its program, which has no faults.
    Code(Code),
    /// Its diagnostics that are shown: that of its library, or else of its tokens, or else of its form, or else the first twenty
    /// of its names and types.
    Diagnosed(Vec<Diagnostic>),
}

/// For how many findings of a token there is room from the first on. A name has two: where it is declared, and what it gives.
const FINDINGS_OF_TOKEN: usize = 2;

/// Compiles a deck that names no library. Nothing but the code is left of it.
pub fn compile_deck(alloc: Global, deck: &[Card]) -> Result<Compiled, AllocError>
    requires { IsDeck deck.now }
    ensures { IfOk result (λ compiled. CompilesTo None deck.now compiled) }
{
    match read_deck(alloc, deck)? {
        Read::Tree(phrase, tokens) => compile_alone(alloc, phrase, tokens),
        Read::Bad(fault) => diagnosed(alloc, fault),
    }
}

/// Compiles the deck of a job, with the library that it names, if any. What stands on the shelf isn't made again; what
/// doesn't is put there.
pub(crate) fn compile_job(
    alloc: Global,
    shelf: &mut Shelf,
    library: &Option<Arc<Library>>,
    deck: &[Card],
) -> Result<Compiled, AllocError>
    requires deck { IsDeck deck.now }
    requires few { length deck.now ≤ 1999 }
    ensures { IfOk result (λ compiled. CompilesTo (option_map (λ l. l.cards) (held library.now)) deck.now compiled) }
{
    let Some(library) = library else {
        return compile_deck(alloc, deck);
    };
    if let Some(prepared) = shelf.find(library) {
        return compile_with(alloc, prepared, deck);
    }
    let prepared = Prepared::new(alloc, library.clone()?)?;
    let compiled = compile_with(alloc, &prepared, deck)?;
    shelf.put(prepared)?;
    Ok(compiled)
}

/// Compiles a deck with a library. The fault of the library stands before those of the deck.
fn compile_with(alloc: Global, prepared: &Prepared, deck: &[Card]) -> Result<Compiled, AllocError>
    requires deck { IsDeck deck.now }
    requires few { length deck.now ≤ 1999 }
    ensures { IfOk result (λ compiled. CompilesTo (Some prepared.now.cards) deck.now compiled) }
{
    match &prepared.found {
        Found::Tree(tree) => compile_within(alloc, tree, prepared.tokens, deck),
        Found::Bad(fault) => diagnosed(alloc, *fault),
    }
}

/// Compiles a deck inside the tree of a library of so many tokens.
fn compile_within(
    alloc: Global,
    library: &LibraryTree,
    tokens: usize,
    deck: &[Card],
) -> Result<Compiled, AllocError>
    requires library { (cards : List (List ℕ)) × HasLibrary cards (library_tree library.now) }
    requires deck { IsDeck deck.now }
    requires few { length deck.now ≤ 1999 }
    ensures { (cards : List (List ℕ)) → HasLibrary cards (library_tree library.now) → IfOk result (λ compiled. CompilesTo (Some cards) deck.now compiled) }
{
    match read_deck(alloc, deck)? {
        Read::Tree(phrase, own) => {
            let room = own.saturating_add(tokens).saturating_mul(FINDINGS_OF_TOKEN);
            compile_composed(alloc, library, phrase, room)
        }
        Read::Bad(fault) => diagnosed(alloc, fault),
    }
}

/// Compiles the program that a deck's program makes with a library. So many findings have room from the first on.
fn compile_composed(
    alloc: Global,
    library: &LibraryTree,
    phrase: Phrase,
    room: usize,
) -> Result<Compiled, AllocError>
    ghost x: { spelled.Phrase }
    requires is { x ≡ composed (library_tree library.now) (tree phrase) }
    requires library { (cards : List (List ℕ)) × HasLibrary cards (library_tree library.now) }
    requires deck { (deck : List (List ℕ)) × IsDeck deck × (length deck ≤ 1999) × HasProgram deck (tree phrase) }
    ensures { (cards : List (List ℕ)) (deck : List (List ℕ)) → HasLibrary cards (library_tree library.now) → HasProgram deck (tree phrase)
        → IfOk result (λ compiled. CompilesTo (Some cards) deck compiled) }
{
    let checked = check_composed(alloc, library, phrase, room)?;
    compile_checked(alloc, checked)
}

/// Checks the names and types of the program that a deck's program makes with a library. The deck's tree is gone then.
fn check_composed(
    alloc: Global,
    library: &LibraryTree,
    phrase: Phrase,
    room: usize,
) -> Result<Checked, AllocError>
    ensures { IfOk result (λ checked. Says (composed (library_tree library.now) (tree phrase)) checked) }
{
    let item = Item::Plain(Box::new(alloc, phrase)?);
    check(alloc, compose(library, &item), room)
}

/// Compiles the program that a deck of so many tokens is.
fn compile_alone(alloc: Global, phrase: Phrase, tokens: usize) -> Result<Compiled, AllocError>
    ghost x: { spelled.Phrase }
    requires is { x ≡ tree phrase }
    requires spelled { (deck : List (List ℕ)) × HasProgram deck x }
    ensures { (deck : List (List ℕ)) → HasProgram deck x → IfOk result (λ compiled. CompilesTo None deck compiled) }
{
    let checked = check_alone(alloc, phrase, tokens.saturating_mul(FINDINGS_OF_TOKEN))?;
    compile_checked(alloc, checked)
}

/// Checks the names and types of the program that a deck is. So many findings have room from the first on. The deck's tree is
/// gone then.
fn check_alone(alloc: Global, phrase: Phrase, room: usize) -> Result<Checked, AllocError>
    requires { (deck : List (List ℕ)) × HasProgram deck (tree phrase) }
    ensures { IfOk result (λ checked. Says (tree phrase) checked) }
{
    let Kind::Block(block) = &phrase.kind else {
        unreachable!("a program is a block");
    };
    let root = Whole::of_block(phrase.place, phrase.first, block);
    check(alloc, root, room)
}

/// Compiles a program that is checked.
fn compile_checked(alloc: Global, checked: Checked) -> Result<Compiled, AllocError>
    ghost x: { spelled.Phrase }
    requires says { Says x checked }
    requires spelled { (library : Option (List (List ℕ))) × (deck : List (List ℕ)) × StandsBefore library deck × JobHasProgram library deck x }
    ensures { (library : Option (List (List ℕ))) (deck : List (List ℕ)) → JobHasProgram library deck x
        → IfOk result (λ compiled. CompilesTo library deck compiled) }
{
    match checked {
        Checked::Good(program) => Ok(Compiled::Code(compile(alloc, &program)?)),
        Checked::Bad(faults) => Ok(Compiled::Diagnosed(faults)),
    }
}

/// A deck with one diagnostic.
fn diagnosed(alloc: Global, fault: Diagnostic) -> Result<Compiled, AllocError>
    ensures { (library : Option (List (List ℕ))) (deck : List (List ℕ)) → JobHasFault library deck fault
        → IfOk result (λ compiled. CompilesTo library deck compiled) }
{
    Ok(Compiled::Diagnosed(vec![in alloc; fault]?))
}
