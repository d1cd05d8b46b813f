ghost use Rattle.std.specs.Prelude.{◌≡◌, true, IfOk, IfSome};

use crate::preparing::{Found, find};
use deck_reader::Library;
use std::alloc::{AllocError, Global};
use std::marker::Model;
use std::sync::Arc;

/// A library that is scanned and parsed.
#[derive(Drop)]
pub(crate) struct Prepared {
    library: Arc<Library>,
    /// What it is.
    pub(crate) found: Found,
    /// How many tokens it has, which says for how many findings there should be room.
    pub(crate) tokens: usize,
}

impl Model for Prepared {
    ghost use Rattle.deck_reader.specs.LibraryView.{LibraryView};

    ghost Value = { LibraryView };

    ghost use Rattle.algolw_meaning.specs.DeckDiagnostics.{IsLibraryFound};
    ghost use Rattle.job_runner.specs.Preparing.{library_found};

    ghost view = { λ p. p.library.value };

    ghost invariant = { λ p. IsLibraryFound p.library.value.cards (library_found p.found) };
}

impl Prepared {
    /// Prepares a library.
    pub(crate) fn new(alloc: Global, library: Arc<Library>) -> Result<Prepared, AllocError>
        ensures { IfOk result (λ prepared. prepared ≡ library.value) }
    {
        let (found, tokens) = find(alloc, library.cards.as_slice())?;
        Ok(Prepared {
            library,
            found,
            tokens,
        })
    }

    /// Whether this is what was prepared of a library.
    #[tactic(auto, using(deck_reader::specs::JobEquality::equal_libraries_are_same))]
    fn is_of(&self, library: &Library) -> bool
        ensures { result ≡ true → self.now ≡ library.now }
    {
        *self.library == *library
    }
}

/// Libraries that jobs named: each is scanned and parsed once for all jobs that are run beside the same shelf.
#[derive(Drop)]
pub struct Shelf {
    prepared: Vec<Prepared>,
}

impl Shelf {
    /// An empty shelf.
    pub fn new(alloc: Global) -> Shelf {
        Shelf {
            prepared: Vec::new(alloc),
        }
    }

    /// Puts what is prepared of a library on the shelf.
    pub(crate) fn put(&mut self, prepared: Prepared) -> Result<(), AllocError> {
        self.prepared.push(prepared)?;
        Ok(())
    }

    /// What is prepared of a library, where it stands on the shelf.
    pub(crate) fn find(&self, library: &Library) -> Option<&Prepared>
        ensures { IfSome result (λ prepared. prepared.now ≡ library.now) }
    {
        for prepared in &self.prepared {
            if prepared.is_of(library) {
                return Some(prepared);
            }
        }
        None
    }
}
