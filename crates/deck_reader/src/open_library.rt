ghost use Rattle.std.specs.Prelude.{◌≡◌, ◌≤◌, [], false, IfOk, OnOk, length};
ghost use Rattle.std.specs.List.{list_any};
ghost use Rattle.deck_reader.specs.CardFlaws.{is_long, is_foul};

use crate::library::{KeptLibrary, Library};
use crate::listed::Listed;
use crate::open_job::{is_foul, is_long};
use std::alloc::{AllocError, Global};
use std::sync::Arc;
use value_ops::{Card, Name};

/// The most cards of a library.
const MOST_CARDS: usize = 500;

/// A library whose cards are still coming.
#[derive(Drop)]
pub struct OpenLibrary {
    /// Its name.
    pub name: Name,
    /// Whether it has over 500 cards by now, one over 80 bytes, or one with a byte that isn't allowed.
    pub is_ill: bool,
    /// Its cards by now, unless it is ill formed.
    pub cards: Listed<Card>,
    ghost few: { length cards ≤ 500 },
    ghost short: { list_any is_long cards ≡ false },
    ghost clean: { list_any is_foul cards ≡ false },
}

impl OpenLibrary {
    ghost use Rattle.deck_reader.specs.Reading.{IsOpenLibrary, Grows, shut};

    /// The library of this name, behind the card that begins it. It takes no memory.
    pub fn new(alloc: Global, name: Name) -> OpenLibrary
        ensures { IsOpenLibrary name [] result }
    {
        OpenLibrary {
            name,
            is_ill: false,
            cards: Listed::new(alloc),
        }
    }

    /// Takes the library's next card.
    pub fn push(&mut self, alloc: Global, card: &[u8]) -> Result<(), AllocError>
        ensures { OnOk result (Grows self.old self.new card.now) }
    {
        self.is_ill = self.is_ill
            || self.cards.len() >= MOST_CARDS
            || is_long(card)
            || is_foul(card);
        if self.is_ill {
            self.cards = Listed::new(alloc);
        } else {
            self.cards.push(Card::from_slice(card))?;
        }
        Ok(())
    }

    /// The library, whose cards have all come.
    pub fn close(self, alloc: Global) -> Result<KeptLibrary, AllocError>
        ensures { IfOk result (λ kept. kept ≡ shut self) }
    {
        let OpenLibrary {
            name,
            is_ill,
            cards,
            ..
        } = self;
        if is_ill {
            return Ok(KeptLibrary {
                name,
                library: None,
            });
        }
        let library = Arc::new(alloc, Library { name, cards })?;
        Ok(KeptLibrary {
            name,
            library: Some(library),
        })
    }
}
