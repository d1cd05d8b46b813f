ghost use Rattle.std.specs.Prelude.{◌≡◌, ◌≤◌, ◌<◌, ◌+◌, ◌++◌, [], List, ℕ, false, IfErr, IfOk, IsErrOf, OnOk, length};
ghost use Rattle.std.specs.List.{AllByRecursion, list_any};
ghost use Rattle.batch_io.specs.Causes.{Rose};
ghost use Rattle.night_shares.specs.Batches.{front_libraries, front_strays};
ghost use Rattle.night_shares.specs.Jobs.{libraries_text, library_text};
ghost use Rattle.night_shares.specs.Lines.{begins_job, text_of_lines};
ghost use Rattle.night_shares.specs.Plan.{row};
ghost use Rattle.night_shares.specs.Reading.{IsInLine};

use deck_reader::{Card, FeedError, KeptLibrary, Listed, Reader};
use std::alloc::{AllocError, Global};

/// A job card, behind which no library is begun.
const JOB_CARD: &[u8] = b"%JOB\n";

/// A card that is too long.
const LONG_CARD: &[u8; 81] = &[b'*'; 81];

/// What the cards before the first job of a night give.
#[derive(Drop)]
pub struct NightFront {
    /// The libraries' cards, as they stand at the head of each part: at most 20 libraries, each of at most 500 cards and one that
    /// begins it.
    pub libraries: Vec<u8>,
    /// How many cards are stray.
    pub stray: u32,
}

impl NightFront {
    /// Of these lines. They are refused as too large where a job card has no room behind them in a batch.
    pub fn new(alloc: Global, front: &[u8]) -> Result<NightFront, FeedError>
        ensures libraries { (lines : List (List ℕ)) → AllByRecursion IsInLine lines → list_any begins_job lines ≡ false → front.now ≡ text_of_lines lines →
            IfOk result (λ night. night.libraries.items ≡ front_libraries lines) }
        ensures stray { (lines : List (List ℕ)) → AllByRecursion IsInLine lines → list_any begins_job lines ≡ false → front.now ≡ text_of_lines lines →
            IfOk result (λ night. night.stray ≡ front_strays lines) }
        ensures fits { OnOk result (length front.now + 5 ≤ 4194304) }
        ensures large { (lines : List (List ℕ)) → AllByRecursion IsInLine lines → list_any begins_job lines ≡ false → front.now ≡ text_of_lines lines →
            IsErrOf result FeedError.TooLarge → 4194304 < length front.now + 5 }
    {
        let mut reader = Reader::with_accounts(alloc, Listed::new(alloc))?;
        reader.feed(front)?;
        reader.feed(JOB_CARD)?;
        let libraries = match reader.libraries() {
            Some(shelf) => libraries_text(alloc, shelf)?,
            None => Vec::new(alloc),
        };
        let batch = reader.finish()?;
        Ok(NightFront {
            libraries,
            stray: batch.stray,
        })
    }
}

/// The cards of libraries.
fn libraries_text(alloc: Global, shelf: &[KeptLibrary]) -> Result<Vec<u8>, AllocError>
    ensures { IfOk result (λ text. text.items ≡ libraries_text shelf.now) }
{
    let mut text = Vec::new(alloc);
    for library in shelf {
        push_library(&mut text, library)?;
    }
    Ok(text)
}

/// Adds a library's cards: the one that begins it, and its own; of an ill-formed one a card that is too long.
fn push_library(text: &mut Vec<u8>, kept: &KeptLibrary) -> Result<(), AllocError>
    ensures { OnOk result (text.new.items ≡ text.old.items ++ library_text kept.now) }
{
    text.extend_from_slice(b"%LIBRARY ")?;
    push_card(text, kept.name.as_slice())?;
    match &kept.library {
        Some(library) => push_cards(text, library.cards.as_slice()),
        None => push_card(text, LONG_CARD),
    }
}

/// Adds these cards.
fn push_cards(text: &mut Vec<u8>, cards: &[Card]) -> Result<(), AllocError>
    ensures { OnOk result (text.new.items ≡ text.old.items ++ text_of_lines cards.now) }
{
    for card in cards {
        push_card(text, card.as_slice())?;
    }
    Ok(())
}

/// Adds a card, with a line feed behind it.
fn push_card(text: &mut Vec<u8>, card: &[u8]) -> Result<(), AllocError>
    ensures { OnOk result (text.new.items ≡ text.old.items ++ row card.now) }
{
    text.extend_from_slice(card)?;
    text.extend_from_slice(b"\n")
}
