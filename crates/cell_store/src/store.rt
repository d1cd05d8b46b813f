ghost use Rattle.std.specs.Prelude.{◌≡◌, ◌≤◌, ◌<◌, ◌+◌, ◌-◌, ℕ, [], ◌∷◌, ◌++◌, Some, None, Ok, Err, IfOk, IfSome, IsSome, OnOk, OnErr, length, replicate, take, max, true, false, is_some, nat_lt, nat_le, ◌&&◌, if◌then◌else◌, option_copied, slice_get, slice_set};
ghost use Rattle.std.specs.Option.{option_and_then};
ghost use Rattle.cell_store.specs.Cells.{a_wide, word_in, wide_in, text_over, nothing};
ghost use Rattle.cell_store.specs.Words.{word_of, is_wide};
ghost use Rattle.cell_store.specs.Held.{word_cell};
ghost use Rattle.value_ops.specs.Strings.{filled};
ghost use Rattle.cell_store.specs.Links.{outwards, is_below, start_at, displayed};
ghost use Rattle.cell_store.specs.Stores.{empty, cells_allowed, with_cells, with_cell_at, array_allowed, new_array, array_cells, entered, has_room, text_allowed, newest, left, cut_back};

use crate::cells::{Wide, Word};
use crate::descriptor::Descriptor;
use crate::dimension::{MOST_CELLS, count_elements};
use crate::display::{Display, PROGRAM};
use crate::entries::{Entry, Frame, Mark, Refusal};
use crate::shelf::Shelf;
use std::alloc::{AllocError, Global};
use std::marker::Model;
use value_ops::{Limit, SimpleType};

/// How many calls and copied actuals may be under way.
const MOST_DEPTH: u32 = 2000;

/// What a run holds. Contracts see lists, each with the newest last. No call but `new` and `make_room` takes memory.
#[derive(Drop)]
pub struct Store {
    cells: Shelf,
    entries: Vec<Entry>,
    /// For how many entries there is room.
    entry_room: u32,
    frames: Vec<Frame>,
    /// What the text of each frame has given.
    answers: Shelf,
    current: Option<u32>,
    /// That of the text that runs, where it is the program or has a frame.
    display: Display,
    depth: u32,
}

impl Model for Store {
    ghost use Rattle.std.specs.Prelude.{length, vec_capacity};
    ghost use Rattle.cell_store.specs.Stores.{Store as StoreView};

    ghost Value = { StoreView };

    ghost use Rattle.cell_store.specs.Held.{Stored};
    ghost use Rattle.cell_store.specs.Displays.{Displayed, HasPlaces};

    ghost view = { λ s. record {
      cells = s.cells.cells;
      entries = s.entries.items;
      frames = s.frames.items;
      answers = s.answers.cells;
      current = s.current;
      depth = s.depth;
      entry_room = s.entry_room;
      frame_room = s.answers.room;
    } };

    ghost invariant = { λ s. Stored s.cells.room (length s.entries.items) s.entry_room (vec_capacity s.entries) (length s.frames.items) (length s.answers.cells) s.answers.room (vec_capacity s.frames)
        × Displayed s.frames.items s.current s.display.entered.items s.display.shown.items s.display.level s.display.torn
        × HasPlaces s.answers.room (length s.display.entered.items) (length s.display.shown.items) };
}

impl Store {
    /// Room for 32,768 cells, and for no entries and frames.
    pub fn new(alloc: Global) -> Result<Store, AllocError>
        ensures { IfOk result (λ store. store ≡ empty 0 0) }
    {
        let mut cells = Shelf::new(alloc);
        cells.make_room(MOST_CELLS)?;
        Ok(Store {
            cells,
            entries: Vec::new(alloc),
            entry_room: 0,
            frames: Vec::new(alloc),
            answers: Shelf::new(alloc),
            current: None,
            display: Display::new(alloc)?,
            depth: 0,
        })
    }

    /// Makes room for as many entries and frames, where there isn't more.
    pub fn make_room(&mut self, entries: u32, frames: u32) -> Result<(), AllocError>
        ensures made { OnOk result (self.new ≡ record self.old {
          entry_room = max self.old.entry_room entries;
          frame_room = max self.old.frame_room frames;
        }) }
        ensures kept { self.new ≡ record self.old { entry_room = self.new.entry_room; frame_room = self.new.frame_room } }
    {
        self.make_entry_room(entries)?;
        self.make_frame_room(frames)
    }

    /// Makes room for as many entries, where there isn't more.
    fn make_entry_room(&mut self, room: u32) -> Result<(), AllocError>
        ensures made { OnOk result (self.new ≡ record self.old { entry_room = max self.old.entry_room room }) }
        ensures unchanged { OnErr result (self.new ≡ self.old) }
    {
        if self.entry_room < room {
            self.entries
                .reserve_exact(room as usize - self.entries.len())?;
            self.entry_room = room;
        }
        Ok(())
    }

    /// Makes room for as many frames, where there isn't more.
    fn make_frame_room(&mut self, room: u32) -> Result<(), AllocError>
        ensures made { OnOk result (self.new ≡ record self.old { frame_room = max self.old.frame_room room }) }
        ensures unchanged { OnErr result (self.new ≡ self.old) }
    {
        if self.answers.room() < room {
            self.frames
                .reserve_exact((room - self.answers.len()) as usize)?;
            self.display.make_room(&self.frames, room)?;
            self.answers.make_room(room)?;
        }
        Ok(())
    }

    /// Gives everything back, but no room.
    pub fn clear(&mut self)
        ensures { self.new ≡ empty self.old.entry_room self.old.frame_room }
    {
        self.cells.cut(0);
        self.entries.clear();
        self.display.clear(&self.frames);
        self.frames.clear();
        self.answers.cut(0);
        self.current = None;
        self.depth = 0;
    }

    /// How many cells are live.
    #[inline(always)]
    pub fn live(&self) -> u32
        ensures count { result ≡ length self.now.cells }
        ensures within { result ≤ 32768 }
    {
        self.cells.len()
    }

    /// What a cell holds, where it is live and that is a word; else `Wide`.
    #[inline(always)]
    pub fn cell(&self, at: u32) -> Word
        ensures { word_of result ≡ option_and_then word_in (slice_get self.now.cells at) }
    {
        self.cells.word(at)
    }

    /// What a cell that is live holds, where that is a word; else `Wide`.
    #[inline(always)]
    pub fn live_cell(&self, at: u32) -> Word
        requires { at < length self.now.cells }
        ensures { word_of result ≡ option_and_then word_in (slice_get self.now.cells at) }
    {
        self.cells.word_there(at)
    }

    /// What a live cell holds, where that is wide.
    #[inline(always)]
    pub fn wide_cell(&self, at: u32) -> Option<&Wide>
        ensures { option_copied result ≡ option_and_then wide_in (slice_get self.now.cells at) }
    {
        self.cells.wide(at)
    }

    /// Whether a cell more may be live.
    #[inline(always)]
    pub fn has_room(&self) -> bool
        ensures { result ≡ nat_lt (length self.now.cells) 32768 }
    {
        self.cells.len() < MOST_CELLS
    }

    /// A cell more, which holds this. L3 exactly where 32,768 are live.
    #[inline(always)]
    pub fn push(&mut self, held: Word) -> Result<(), Limit>
        requires { is_wide held ≡ false }
        ensures answer { result ≡ cells_allowed 1 self.old }
        ensures pushed { OnOk result (self.new ≡ with_cells (word_cell held ∷ []) self.old) }
        ensures unchanged { OnErr result (self.new ≡ self.old) }
    {
        if self.cells.len() >= MOST_CELLS {
            return Err(Limit::Storage);
        }
        self.cells.push(held);
        Ok(())
    }

    /// A cell more, which holds this. L3 exactly where 32,768 are live.
    #[inline(always)]
    pub fn push_wide(&mut self, held: &Wide) -> Result<(), Limit>
        ensures answer { result ≡ cells_allowed 1 self.old }
        ensures pushed { OnOk result (self.new ≡ with_cells (a_wide held.now ∷ []) self.old) }
        ensures unchanged { OnErr result (self.new ≡ self.old) }
    {
        if self.cells.len() >= MOST_CELLS {
            return Err(Limit::Storage);
        }
        self.cells.push_wide(held);
        Ok(())
    }

    /// So many cells more, which hold nothing. L3 exactly where that would make more than 32,768 live cells.
    pub fn push_empty(&mut self, count: u32) -> Result<(), Limit>
        ensures answer { result ≡ cells_allowed count self.old }
        ensures pushed { OnOk result (self.new ≡ with_cells (replicate count nothing) self.old) }
        ensures unchanged { OnErr result (self.new ≡ self.old) }
    {
        if count > MOST_CELLS - self.cells.len() {
            return Err(Limit::Storage);
        }
        self.cells.push_empty(count);
        Ok(())
    }

    /// An array's own cell and, behind it, its elements. L3 exactly where that would make more than 32,768 live cells.
    pub fn push_array(
        &mut self,
        kind: SimpleType,
        bounds: &[(i32, i32)],
    ) -> Result<Descriptor, Limit>
        requires { length bounds.now ≤ 8 }
        ensures answer { result ≡ array_allowed kind bounds.now self.old }
        ensures pushed { OnOk result (self.new ≡ with_cells (array_cells (new_array kind bounds.now self.old)) self.old) }
        ensures unchanged { OnErr result (self.new ≡ self.old) }
    {
        let elements = count_elements(bounds);
        let live = self.cells.len();
        if live + 1 + elements > MOST_CELLS {
            return Err(Limit::Storage);
        }
        let array = Descriptor::new(kind, bounds, live + 1);
        self.cells.push_wide(&Wide::Array(array));
        self.cells.push_empty(elements);
        Ok(array)
    }

    /// A live cell holds this from now on.
    #[inline(always)]
    pub fn set_cell(&mut self, at: u32, held: Word)
        requires there { at < length self.old.cells }
        requires word { is_wide held ≡ false }
        ensures { self.new ≡ with_cell_at at (word_cell held) self.old }
    {
        self.cells.set(at, held);
    }

    /// A live cell holds this from now on.
    pub fn set_wide_cell(&mut self, at: u32, held: &Wide)
        requires { at < length self.old.cells }
        ensures { self.new ≡ with_cell_at at (a_wide held.now) self.old }
    {
        self.cells.set_wide(at, held);
    }

    /// A live cell holds a string of these characters from now on, filled with blanks to a length.
    pub fn set_text(&mut self, at: u32, characters: &[u8], count: u16)
        requires there { at < length self.old.cells }
        requires few { length characters.now ≤ 256 }
        requires most { count ≤ 256 }
        ensures { self.new ≡ with_cell_at at (a_wide (Wide.Str (filled count characters.now))) self.old }
    {
        self.cells.set_text(at, characters, count);
    }

    /// Characters of the string in a live cell, from a place on, become these. False exactly where the cell holds no
    /// string that has so many there, and then all stays as it was.
    pub fn overwrite(&mut self, at: u32, from: usize, characters: &[u8]) -> bool
        ensures answer { result ≡ is_some (option_and_then (text_over from characters.now) (option_and_then wide_in (slice_get self.old.cells at))) }
        ensures written { IfSome (option_and_then (text_over from characters.now) (option_and_then wide_in (slice_get self.old.cells at))) (λ s. self.new ≡ with_cell_at at (a_wide (Wide.Str s)) self.old) }
        ensures unchanged { result ≡ false → self.new ≡ self.old }
    {
        self.cells.overwrite(at, from, characters)
    }

    /// Gives back all cells but the first so many.
    #[inline(always)]
    pub fn cut_to(&mut self, mark: u32)
        ensures { self.new ≡ record self.old { cells = take mark self.old.cells } }
    {
        self.cells.cut(mark);
    }

    /// How many entries there are.
    #[inline(always)]
    pub fn entry_count(&self) -> u32
        ensures { result ≡ length self.now.entries }
    {
        self.entries.len() as u32
    }

    /// An entry, by its number.
    #[inline(always)]
    pub fn entry(&self, at: usize) -> Entry
        requires { at < length self.now.entries }
        ensures { slice_get self.now.entries at ≡ Some result }
    {
        self.entries[at]
    }

    /// An entry more. It is refused exactly where there is no room.
    #[inline(always)]
    pub fn push_entry(&mut self, entry: Entry) -> Result<(), Refusal>
        ensures answer { result ≡ (if nat_lt (length self.old.entries) self.old.entry_room then Ok tt else Err Refusal.NoRoom) }
        ensures pushed { OnOk result (self.new ≡ record self.old { entries = self.old.entries ++ entry ∷ [] }) }
        ensures unchanged { OnErr result (self.new ≡ self.old) }
    {
        if self.entries.len() >= self.entry_room as usize {
            return Err(Refusal::NoRoom);
        }
        self.entries.push_reserved(entry);
        Ok(())
    }

    /// The entry of this number becomes another.
    pub fn set_entry(&mut self, at: usize, entry: Entry)
        requires { at < length self.old.entries }
        ensures { self.new ≡ record self.old { entries = slice_set self.old.entries at entry } }
    {
        self.entries[at] = entry;
    }

    /// Drops all entries but the first so many.
    #[inline(always)]
    pub fn cut_entries(&mut self, kept: u32)
        ensures { self.new ≡ record self.old { entries = take kept self.old.entries } }
    {
        self.entries.truncate(kept as usize);
    }

    /// How many calls and copied actuals are under way.
    pub fn depth(&self) -> u32
        ensures { result ≡ self.now.depth }
    {
        self.depth
    }

    /// How many texts are under way, each with its answer.
    #[inline(always)]
    pub fn frame_count(&self) -> u32
        ensures count { result ≡ length self.now.frames }
        ensures answers { result ≡ length self.now.answers }
    {
        self.answers.len()
    }

    /// The frame of a text under way, by its number.
    #[inline(always)]
    pub fn frame(&self, at: u32) -> &Frame
        requires { at < length self.now.frames }
        ensures { slice_get self.now.frames at ≡ Some result.now }
    {
        &self.frames[at as usize]
    }

    /// The frame of the newest text under way, where there is one.
    #[inline(always)]
    pub fn newest(&self) -> Option<&Frame>
        ensures { option_copied result ≡ newest self.now }
    {
        self.frames.last()
    }

    /// The frame of the text that runs, none where that is the program.
    #[inline(always)]
    pub fn current(&self) -> Option<u32>
        ensures { result ≡ self.now.current }
    {
        self.current
    }

    /// Whether the text that runs is the program or has a frame.
    #[inline(always)]
    fn is_there(&self) -> bool
        ensures { result ≡ is_below self.now.current (length self.now.frames) }
    {
        match self.current {
            None => true,
            Some(number) => number < self.answers.len(),
        }
    }

    /// The texts that the one that runs stands inside, and itself, by their levels, where there is one of that level: the
    /// level of the program is 0, and that of a text one more than that of the text round it. Each goes by its frame, and the
    /// program, which has none, by `PROGRAM`.
    #[inline(always)]
    pub fn display(&self, level: u16) -> Option<u32>
        ensures { result ≡ displayed self.now.frames self.now.current level }
    {
        if !self.is_there() {
            return if level == 0 { self.current } else { None };
        }
        if u32::from(level) <= self.display.level {
            Some(self.display.shown[usize::from(level)].text)
        } else {
            None
        }
    }

    /// The text so many links out from the one that runs, by its frame; the program has none.
    #[inline(always)]
    pub fn text_out(&self, links: u32) -> Option<u32>
        requires { IsSome (outwards self.now.frames self.now.current links) }
        ensures { outwards self.now.frames self.now.current links ≡ Some result }
    {
        if links == 0 {
            return self.current;
        }
        let text = self.display.shown[(self.display.level - links) as usize].text;
        (text != PROGRAM).then_some(text)
    }

    /// How many entries lie below those of the text so many links out from the one that runs.
    #[inline(always)]
    pub fn start_out(&self, links: u32) -> u32
        requires { IsSome (start_at self.now.frames (outwards self.now.frames self.now.current links)) }
        ensures { start_at self.now.frames (outwards self.now.frames self.now.current links) ≡ Some result }
    {
        self.display.shown[(self.display.level - links) as usize].start
    }

    /// A text runs: its frame and its mark are the newest. L4 exactly where it counts and the depth is 2,000; otherwise it
    /// is refused exactly where there is no room, or its link names neither the program nor a text under way.
    #[inline(always)]
    pub fn enter(&mut self, frame: Frame, mark: Entry) -> Result<(), Refusal>
        ensures answer { result ≡ text_allowed frame self.old }
        ensures entered { OnOk result (self.new ≡ entered frame mark self.old) }
        ensures unchanged { OnErr result (self.new ≡ self.old) }
    {
        self.enter_by(None, frame, mark)
    }

    /// The same. Where it is told, the text round it is so many links out from the one that runs, and is found without a look.
    #[inline(always)]
    pub fn enter_by(&mut self, links: Option<u32>, frame: Frame, mark: Entry) -> Result<(), Refusal>
        requires way { IfSome links (λ n. outwards self.old.frames self.old.current n ≡ Some frame.link) }
        requires below { IfSome links (λ n. (frame.counts && nat_le 2000 self.old.depth) ≡ false → is_below frame.link (length self.old.frames) ≡ true) }
        ensures answer { result ≡ text_allowed frame self.old }
        ensures entered { OnOk result (self.new ≡ entered frame mark self.old) }
        ensures unchanged { OnErr result (self.new ≡ self.old) }
    {
        let depth = u32::from(frame.counts);
        if frame.counts && self.depth >= MOST_DEPTH {
            return Err(Refusal::Limit(Limit::Depth));
        }
        if !self.has_room_for(links, frame.link) {
            return Err(Refusal::NoRoom);
        }
        self.display
            .enter_by(&self.frames, self.current, links, &frame);
        self.current = Some(self.answers.len());
        self.entries.push_reserved(mark);
        self.frames.push_reserved(frame);
        self.answers.push(Word::Nothing);
        self.depth += depth;
        Ok(())
    }

    /// Whether there is room for a text more, and its link names the program or a text under way, as it does where it is told
    /// how many links out that is.
    #[inline(always)]
    fn has_room_for(&self, links: Option<u32>, link: Option<u32>) -> bool
        requires { IfSome links (λ n. is_below link (length self.now.frames) ≡ true) }
        ensures { result ≡ (has_room self.now && is_below link (length self.now.frames)) }
    {
        let number = self.answers.len();
        number < self.answers.room()
            && self.entries.len() < self.entry_room as usize
            && (links.is_some() || !link.is_some_and(|link| link >= number))
    }

    /// Gives back all of the newest text: its frame, its entries and its cells.
    #[inline(always)]
    pub fn leave(&mut self)
        requires { 0 < length self.old.frames }
        ensures { IfSome (newest self.old) (λ frame. self.new ≡ left frame self.old) }
    {
        let newest = self.answers.len() - 1;
        let frame = self.frames[newest as usize];
        self.cells.cut(frame.base);
        self.entries.truncate(frame.start as usize);
        self.display.leave(&self.frames);
        self.frames.truncate(newest as usize);
        self.answers.cut(newest);
        self.depth = self.depth.saturating_sub(u32::from(frame.counts));
    }

    /// The newest text, which is the one that runs, is given back with all of its own, and the text to return to goes on.
    #[inline(always)]
    pub fn give_back(&mut self)
        requires one { 0 < length self.old.frames }
        requires runs { self.old.current ≡ Some (length self.old.frames - 1) }
        ensures { IfSome (newest self.old) (λ frame. self.new ≡ record (left frame self.old) { current = frame.text }) }
    {
        let newest = self.answers.len() - 1;
        let frame = self.frames[newest as usize];
        self.cells.cut(frame.base);
        self.entries.truncate(frame.start as usize);
        self.display.give_back(&self.frames, newest, frame.text);
        self.frames.truncate(newest as usize);
        self.answers.cut(newest);
        self.current = frame.text;
        self.depth = self.depth.saturating_sub(u32::from(frame.counts));
    }

    /// A text under way goes on, none of them where that is the program.
    #[inline(always)]
    pub fn go_on(&mut self, text: Option<u32>)
        ensures { self.new ≡ record self.old { current = text } }
    {
        self.display.go_on(&self.frames, text);
        self.current = text;
    }

    /// A jump: all is given back but so many entries and what the mark says, and a text goes on.
    pub fn cut_back(&mut self, kept: u32, mark: Mark, text: Option<u32>)
        ensures { self.new ≡ cut_back kept mark text self.old }
    {
        self.cells.cut(mark.cells);
        self.entries.truncate(kept as usize);
        self.display.cut(&self.frames, mark.frames);
        self.frames.truncate(mark.frames as usize);
        self.answers.cut(mark.frames);
        self.display.turn(&self.frames, text);
        self.current = text;
        self.depth = mark.depth;
    }

    /// What a text under way has given, where that is a word; else `Wide`.
    pub fn answer(&self, at: u32) -> Word
        ensures { word_of result ≡ option_and_then word_in (slice_get self.now.answers at) }
    {
        self.answers.word(at)
    }

    /// What a text under way has given, where that is wide.
    pub fn wide_answer(&self, at: u32) -> Option<&Wide>
        ensures { option_copied result ≡ option_and_then wide_in (slice_get self.now.answers at) }
    {
        self.answers.wide(at)
    }

    /// A text under way has given this.
    pub fn set_answer(&mut self, at: u32, held: Word)
        requires there { at < length self.old.frames }
        requires word { is_wide held ≡ false }
        ensures { self.new ≡ record self.old { answers = slice_set self.old.answers at (word_cell held) } }
    {
        self.answers.set(at, held);
    }

    /// A text under way has given this.
    pub fn set_wide_answer(&mut self, at: u32, held: &Wide)
        requires { at < length self.old.frames }
        ensures { self.new ≡ record self.old { answers = slice_set self.old.answers at (a_wide held.now) } }
    {
        self.answers.set_wide(at, held);
    }
}
