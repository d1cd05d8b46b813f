ghost use Rattle.std.specs.Prelude.{◌≡◌, ◌+◌, ◌≤◌, ◌<◌, [], ◌∷◌, ◌++◌, length, take, replicate, max, IfOk, IfSome, OnErr, OnOk, false, is_some, option_copied, slice_get, slice_set, vec_capacity};
ghost use Rattle.std.specs.Option.{option_and_then};
ghost use Rattle.cell_store.specs.Cells.{a_wide, word_in, wide_in, text_over, nothing};
ghost use Rattle.cell_store.specs.Words.{word_of, is_wide};
ghost use Rattle.cell_store.specs.Held.{beside_at, word_cell};
ghost use Rattle.value_ops.specs.Strings.{filled};
ghost use Rattle.cell_store.specs.declared.cells.Word.TheVariants as kind;

use crate::cells::{Wide, Word};
use crate::items::{item_at, item_there, ref_at};
use std::alloc::{AllocError, Global};
use std::marker::Model;

/// Words that hold nothing, so that many cells are made undefined by one copy of memory.
static BLANK: [Word; 512] = [Word::Nothing; 512];

/// Cells in line. Contracts see what each holds, and how many there is room for. No call but `new` and `make_room` takes
/// memory.
#[derive(Drop)]
pub(crate) struct Shelf {
    /// The words; `Wide` where what the cell holds stands beside.
    words: Vec<Word>,
    /// What is too wide for a word, at the number of its cell; made as far as it was needed.
    beside: Vec<Wide>,
    room: u32,
}

impl Model for Shelf {
    ghost use Rattle.std.specs.Prelude.{vec_capacity};
    ghost use Rattle.cell_store.specs.Cells.{Shelf as ShelfView};

    ghost Value = { ShelfView };

    ghost use Rattle.cell_store.specs.Held.{cells, Shelved};

    ghost view = { λ s. record { cells = cells s.words.items s.beside.items; room = s.room } };

    ghost invariant = { λ s. Shelved s.words.items s.beside.items s.room (vec_capacity s.words) (vec_capacity s.beside) };
}

impl Shelf {
    /// No cells, and room for none.
    pub fn new(alloc: Global) -> Shelf
        ensures { result ≡ record { cells = []; room = 0 } }
    {
        Shelf {
            words: Vec::new(alloc),
            beside: Vec::new(alloc),
            room: 0,
        }
    }

    /// Makes room for as many cells, where there isn't more.
    #[tactic(auto, using(crate::proofs::CellLines::length_cells))]
    pub fn make_room(&mut self, room: u32) -> Result<(), AllocError>
        ensures made { OnOk result (self.new ≡ record self.old { room = max self.old.room room }) }
        ensures unchanged { OnErr result (self.new ≡ self.old) }
    {
        if room <= self.room {
            return Ok(());
        }
        self.beside
            .reserve_exact(room as usize - self.beside.len())?;
        self.words.reserve_exact(room as usize - self.words.len())?;
        self.room = room;
        Ok(())
    }

    /// How many cells there are.
    #[inline(always)]
    #[tactic(auto, using(crate::proofs::CellLines::length_cells))]
    pub fn len(&self) -> u32
        ensures count { result ≡ length self.now.cells }
        ensures within { result ≤ self.now.room }
    {
        self.words.len() as u32
    }

    /// For how many there is room.
    #[inline(always)]
    pub fn room(&self) -> u32
        ensures { result ≡ self.now.room }
    {
        self.room
    }

    /// What a cell holds, where that is a word; `Wide` where it is none.
    #[inline(always)]
    #[tactic(auto, using(crate::proofs::CellLines::word_at))]
    pub fn word(&self, at: u32) -> Word
        ensures { word_of result ≡ option_and_then word_in (slice_get self.now.cells at) }
    {
        match item_at(&self.words, at as usize) {
            Some(word) => word,
            None => Word::Wide,
        }
    }

    /// What a cell that is there holds, where that is a word; `Wide` where it is none.
    #[inline(always)]
    #[tactic(auto, using(crate::proofs::CellLines::length_cells, crate::proofs::CellLines::word_there))]
    pub fn word_there(&self, at: u32) -> Word
        requires { at < length self.now.cells }
        ensures { word_of result ≡ option_and_then word_in (slice_get self.now.cells at) }
    {
        item_there(&self.words, at as usize)
    }

    /// What a cell holds, where that is wide.
    #[inline(always)]
    #[tactic(auto, using(crate::proofs::CellLines::wide_at))]
    pub fn wide(&self, at: u32) -> Option<&Wide>
        ensures { option_copied result ≡ option_and_then wide_in (slice_get self.now.cells at) }
    {
        if item_at(&self.words, at as usize)?.is_wide() {
            ref_at(&self.beside, at as usize)
        } else {
            None
        }
    }

    /// A cell more, which holds this.
    #[inline(always)]
    #[tactic(auto, using(crate::proofs::CellLines::length_cells, crate::proofs::CellLines::cells_push, crate::proofs::CellLines::beside_push))]
    pub fn push(&mut self, held: Word)
        requires room { length self.old.cells < self.old.room }
        requires word { is_wide held ≡ false }
        ensures { self.new ≡ record self.old { cells = self.old.cells ++ word_cell held ∷ [] } }
    {
        self.words.push_reserved(held);
    }

    /// A cell more, which holds this.
    #[inline(always)]
    #[tactic(auto, using(crate::proofs::CellLines::length_cells, crate::proofs::CellLines::cells_push_wide, crate::proofs::CellLines::beside_push_wide, crate::proofs::CellLines::cells_more, crate::proofs::CellLines::length_set_beside))]
    pub fn push_wide(&mut self, held: &Wide)
        requires { length self.old.cells < self.old.room }
        ensures { self.new ≡ record self.old { cells = self.old.cells ++ a_wide held.now ∷ [] } }
    {
        let at = self.words.len();
        if at >= self.beside.len() {
            fill_up(&mut self.beside, at + 1);
        }
        self.beside[at].copy_from(held);
        self.words.push_reserved(Word::Wide);
    }

    /// So many cells more, which hold nothing.
    pub fn push_empty(&mut self, count: u32)
        requires { length self.old.cells + count ≤ self.old.room }
        ensures { self.new ≡ record self.old { cells = self.old.cells ++ replicate count nothing } }
    {
        let mut left = count as usize;
        while left > 0 {
            let some = left.min(BLANK.len());
            self.push_blank(some);
            left -= some;
        }
    }

    /// So many cells more, at most 512, which hold nothing.
    #[tactic(auto, using(crate::proofs::CellLines::length_cells, crate::proofs::CellLines::length_blank, crate::proofs::CellLines::cells_blank, crate::proofs::CellLines::beside_blank))]
    fn push_blank(&mut self, count: usize)
        requires room { length self.old.cells + count ≤ self.old.room }
        requires most { count ≤ 512 }
        ensures { self.new ≡ record self.old { cells = self.old.cells ++ replicate count nothing } }
    {
        append_blank(&mut self.words, count);
    }

    /// The cell of this number holds this from now on.
    #[inline(always)]
    #[tactic(auto, using(crate::proofs::CellLines::length_cells, crate::proofs::CellLines::cells_set, crate::proofs::CellLines::beside_set, crate::proofs::CellLines::length_set_words))]
    pub fn set(&mut self, at: u32, held: Word)
        requires there { at < length self.old.cells }
        requires word { is_wide held ≡ false }
        ensures { self.new ≡ record self.old { cells = slice_set self.old.cells at (word_cell held) } }
    {
        self.words[at as usize] = held;
    }

    /// The cell of this number holds this from now on.
    #[tactic(auto, using(crate::proofs::CellLines::length_cells, crate::proofs::CellLines::cells_set_wide, crate::proofs::CellLines::beside_set_wide, crate::proofs::CellLines::cells_more, crate::proofs::CellLines::beside_more, crate::proofs::CellLines::length_set_beside, crate::proofs::CellLines::length_set_words))]
    pub fn set_wide(&mut self, at: u32, held: &Wide)
        requires { at < length self.old.cells }
        ensures { self.new ≡ record self.old { cells = slice_set self.old.cells at (a_wide held.now) } }
    {
        fill_up(&mut self.beside, at as usize + 1);
        self.beside[at as usize].copy_from(held);
        self.words[at as usize] = Word::Wide;
    }

    /// The cell of this number holds a string of these characters from now on, filled with blanks to a length.
    #[tactic(auto, using(crate::proofs::CellLines::length_cells, crate::proofs::CellLines::cells_set_wide, crate::proofs::CellLines::beside_set_wide, crate::proofs::CellLines::cells_more, crate::proofs::CellLines::beside_more, crate::proofs::CellLines::length_set_beside, crate::proofs::CellLines::length_set_words))]
    pub fn set_text(&mut self, at: u32, characters: &[u8], count: u16)
        requires there { at < length self.old.cells }
        requires few { length characters.now ≤ 256 }
        requires most { count ≤ 256 }
        ensures { self.new ≡ record self.old { cells = slice_set self.old.cells at (a_wide (Wide.Str (filled count characters.now))) } }
    {
        fill_up(&mut self.beside, at as usize + 1);
        self.beside[at as usize].set_filled(characters, count);
        self.words[at as usize] = Word::Wide;
    }

    /// Characters of the string in a cell, from a place on, become these. False exactly where the cell holds no string
    /// that has so many there, and then all stays as it was.
    #[tactic(auto, using(crate::proofs::CellLines::length_set_beside, crate::proofs::CellLines::there_beside, crate::proofs::CellLines::wide_there, crate::proofs::CellLines::no_wide_there, crate::proofs::CellLines::cells_rewrite, crate::proofs::CellLines::beside_rewrite))]
    pub fn overwrite(&mut self, at: u32, from: usize, characters: &[u8]) -> bool
        ensures answer { result ≡ is_some (option_and_then (text_over from characters.now) (option_and_then wide_in (slice_get self.old.cells at))) }
        ensures written { IfSome (option_and_then (text_over from characters.now) (option_and_then wide_in (slice_get self.old.cells at))) (λ s. self.new ≡ record self.old { cells = slice_set self.old.cells at (a_wide (Wide.Str s)) }) }
        ensures unchanged { result ≡ false → self.new ≡ self.old }
    {
        if !is_beside_at(&self.words, at as usize) {
            return false;
        }
        self.beside[at as usize].overwrite(from, characters)
    }

    /// Gives back all cells but the first so many.
    #[inline(always)]
    #[tactic(auto, using(crate::proofs::CellLines::length_cells, crate::proofs::CellLines::cells_take, crate::proofs::CellLines::beside_take))]
    pub fn cut(&mut self, kept: u32)
        ensures { self.new ≡ record self.old { cells = take kept self.old.cells } }
    {
        self.words.truncate(kept as usize);
    }
}

/// So many words more, at most 512, which hold nothing.
#[inline(always)]
fn append_blank(words: &mut Vec<Word>, count: usize)
    requires room { length words.old.items + count ≤ vec_capacity words.old }
    requires most { count ≤ 512 }
    ensures items { words.new.items ≡ words.old.items ++ replicate count kind.Nothing }
    ensures capacity { vec_capacity words.old ≤ vec_capacity words.new }
{
    let Ok(()) = words.extend_from_slice(&BLANK[..count]) else {
        unreachable!()
    };
}

/// Whether what the cell of this number holds stands beside.
#[inline(always)]
fn is_beside_at(words: &[Word], at: usize) -> bool
    ensures { result ≡ beside_at words.now at }
{
    match item_at(words, at) {
        Some(word) => word.is_wide(),
        None => false,
    }
}

/// What stands beside is made as far as so many cells.
#[inline(never)]
fn fill_up(beside: &mut Vec<Wide>, count: usize)
    requires { count ≤ vec_capacity beside.old }
    ensures kept { take (length beside.old.items) beside.new.items ≡ beside.old.items }
    ensures long { count ≤ length beside.new.items }
    ensures most { length beside.new.items ≤ max count (length beside.old.items) }
    ensures capacity { vec_capacity beside.new ≡ vec_capacity beside.old }
{
    for _ in beside.len()..count {
        beside.push_reserved(Wide::BLANK);
    }
}
