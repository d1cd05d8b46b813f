ghost use Rattle.std.specs.Prelude.{◌≡◌, bytes_eq};
ghost use Rattle.std.specs.List.{find, list_any};
ghost use Rattle.std.specs.Option.{option_eq, option_map};
ghost use Rattle.deck_reader.specs.JobEquality.{library_eq};
ghost use Rattle.deck_reader.specs.Named.{is_free};
ghost use Rattle.deck_reader.specs.Batch.{library_found, library_named};
ghost use Rattle.deck_reader.specs.Shelves.{held, found_at, free_name};

use crate::batch::Flaw;
use crate::forms;
use crate::listed::Listed;
use std::marker::Model;
use std::sync::Arc;
use value_ops::{Card, Name};

/// The most libraries of a batch.
const MOST_LIBRARIES: usize = 20;

/// A library of procedures, which the jobs of a batch may name.
#[derive(Drop)]
pub struct Library {
    /// A capital letter and at most 7 more capitals or digits, whatever its card's case of letters.
    pub name: Name,
    /// Its cards, at most 500.
    pub cards: Listed<Card>,
}

impl Model for Library {
    ghost use Rattle.std.specs.Prelude.{◌≡◌, ◌≤◌, false, length};
    ghost use Rattle.std.specs.List.{list_any};
    ghost use Rattle.deck_reader.specs.CardFlaws.{is_long, is_foul};
    ghost use Rattle.deck_reader.specs.LibraryView.{LibraryView};

    ghost Value = { LibraryView };

    ghost view = { λ l. record { name = l.name; cards = l.cards } };

    ghost invariant = { λ l. (length l.cards ≤ 500) × (list_any is_long l.cards ≡ false) × (list_any is_foul l.cards ≡ false) };
}

/// Equal where their names and their cards are.
impl PartialEq for Library {
    ghost use Rattle.std.specs.Cmp.{decided, partial_equiv_from_equiv};
    ghost use Rattle.deck_reader.specs.JobEquality.{library_eq};
    ghost use Rattle.deck_reader.specs.JobEquality.{equal_libraries_are_same};

    ghost eq = { library_eq };

    ghost laws = { partial_equiv_from_equiv (decided library_eq equal_libraries_are_same) };

    #[tactic(auto, unfolding(crate::specs::JobEquality::library_eq))]
    fn eq(&self, other: &Library) -> bool {
        self.name == other.name && self.cards == other.cards
    }
}

impl Eq for Library {
    ghost use Rattle.std.specs.Cmp.{decided};
    ghost use Rattle.deck_reader.specs.JobEquality.{library_eq};
    ghost use Rattle.deck_reader.specs.JobEquality.{equal_libraries_are_same};

    ghost laws = { decided library_eq equal_libraries_are_same };
}

/// A library that a batch keeps.
#[derive(Drop)]
pub struct KeptLibrary {
    /// Its name.
    pub name: Name,
    /// The library, unless it is ill formed: over 500 cards, a card over 80 bytes, or a byte that isn't allowed.
    pub library: Option<Arc<Library>>,
}

impl Model for KeptLibrary {
    ghost use Rattle.std.specs.Option.{option_map};
    ghost use Rattle.deck_reader.specs.LibraryView.{Shelved};

    ghost Value = { Shelved };

    ghost view = { λ k. record { name = k.name; library = option_map (λ l. l.value) k.library } };
}

/// Whether two libraries that there may be are equal.
pub fn same(one: &Option<Arc<Library>>, other: &Option<Arc<Library>>) -> bool
    ensures { result ≡ option_eq library_eq (held one.now) (held other.now) }
{
    one == other
}

/// The library of this name, where one is named. It is a flaw where none that is kept has the name, and where that is ill
/// formed.
pub fn find_library<'a>(
    kept: &'a [KeptLibrary],
    name: Option<Name>,
) -> Result<Option<&'a Arc<Library>>, Flaw>
    ensures { found_at result ≡ library_named kept.now name }
{
    match name {
        None => Ok(None),
        Some(name) => library_of(kept_library(kept, name.as_slice())),
    }
}

/// The library that is kept here, where one is.
fn library_of(found: Option<&KeptLibrary>) -> Result<Option<&Arc<Library>>, Flaw>
    ensures { found_at result ≡ library_found (option_map (λ k. k.now) found.entry) }
{
    let Some(found) = found else {
        return Err(Flaw::LibraryUnknown);
    };
    match &found.library {
        None => Err(Flaw::LibraryIllFormed),
        Some(library) => Ok(Some(library)),
    }
}

/// The name of the library that a card begins, where it begins one, its name is new and there is room.
pub fn free_name(kept: &[KeptLibrary], card: &[u8]) -> Option<Name>
    ensures { result ≡ free_name kept.now card.now }
{
    let name = forms::library_card(card)?;
    if is_free(kept, name.as_slice()) {
        Some(name)
    } else {
        None
    }
}

/// Whether there is room for a library more, and none has this name.
fn is_free(kept: &[KeptLibrary], name: &[u8]) -> bool
    ensures { result ≡ is_free (λ k. k.name) 20 kept.now name.now }
{
    kept.len() < MOST_LIBRARIES && !is_kept(kept, name)
}

fn is_kept(kept: &[KeptLibrary], name: &[u8]) -> bool
    ensures { result ≡ list_any (λ k. bytes_eq k.name name.now) kept.now }
{
    kept.iter().any(|k| has_name(k, name))
}

/// The one that is kept under this name.
fn kept_library<'a>(kept: &'a [KeptLibrary], name: &[u8]) -> Option<&'a KeptLibrary>
    ensures { option_map (λ k. k.now) result ≡ find (λ k. bytes_eq k.name name.now) kept.now }
{
    kept.iter().find(|k| has_name(k, name))
}

fn has_name(kept: &KeptLibrary, name: &[u8]) -> bool
    ensures { result ≡ bytes_eq kept.now.name name.now }
{
    kept.name.as_slice() == name
}
