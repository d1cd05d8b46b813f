ghost use Rattle.std.specs.Prelude.{◌≡◌, ◌++◌, ◌∷◌, ◌≤◌, ◌<◌, [], ℕ, List, Some, true, IfOk, OnOk, IsErrOf, MatchResult, length};
ghost use Rattle.std.specs.Io.KnownBytes.{prepend_known};
ghost use Rattle.batch_io.specs.Causes.{Rose};
ghost use Rattle.listing_parts.specs.Lines.{is_line};
ghost use Rattle.night_merge.specs.Reading.{TakesFront};

use crate::stop::Unread;
use batch_io::Source;
use deck_reader::split_once;
use std::alloc::{AllocError, Global};
use std::marker::Model;

/// How many bytes are read at a time.
const PIECE: usize = 65_536;

/// The most bytes of a line of a plan, without its line feed.
const MOST_LINE: usize = 256;

/// A plan that is read line by line: the bytes that were read, and of these the ones that aren't taken yet.
#[derive(Drop)]
pub struct PlanReader {
    buffer: Vec<u8>,
    taken: usize,
    filled: usize,
}

impl Model for PlanReader {
    ghost use Rattle.std.specs.Prelude.{◌≤◌, ◌<◌, ℕ, List, drop, take, vec_len};

    ghost Value = { List ℕ };

    ghost view = { λ r. drop r.taken (take r.filled r.buffer.items) };

    ghost invariant = { λ r. (r.taken ≤ r.filled) × (r.filled ≤ vec_len r.buffer) × (0 < vec_len r.buffer) };
}

impl PlanReader {
    /// A plan of which nothing was read.
    pub fn new(alloc: Global) -> Result<PlanReader, AllocError>
        ensures { IfOk result (λ plan. plan ≡ []) }
    {
        Ok(PlanReader {
            buffer: Vec::from_elem(alloc, 0, PIECE)?,
            taken: 0,
            filled: 0,
        })
    }

    /// The next line, without its line feed. What ends before, or has over 256 bytes up to there, is no plan.
    pub fn next_line<P: Source>(&mut self, alloc: Global, src: &mut P) -> Result<Vec<u8>, Unread>
        ensures line { (line rest : List ℕ) → prepend_known self.old (P.left src.old) ≡ Some (line ++ 10 ∷ rest) → is_line line ≡ true → length line ≤ 256
            → MatchResult result (λ read. (read.items ≡ line) × (prepend_known self.new (P.left src.new) ≡ Some rest)) (λ unread. unread ≡ Unread.BadPlan → ⊥) }
        ensures kept { OnOk result (P.faults src.new ≡ P.faults src.old) }
        ensures read { IsErrOf result Unread.ReadFault → Rose (P.faults src.old) (P.faults src.new) }
    {
        let mut line = Vec::new(alloc);
        while line.len() <= MOST_LINE {
            self.fill(src)?;
            if self.take_front(&mut line)? {
                return Ok(line);
            }
        }
        Err(Unread::BadPlan)
    }

    /// Reads on, where all bytes are taken.
    fn fill<P: Source>(&mut self, src: &mut P) -> Result<(), Unread>
        ensures ahead { (text : List ℕ) → prepend_known self.old (P.left src.old) ≡ Some text
            → MatchResult result (λ _. prepend_known self.new (P.left src.new) ≡ Some text) (λ unread. unread ≡ Unread.BadPlan → text ≡ []) }
        ensures some { OnOk result (0 < length self.new) }
        ensures kept { OnOk result (P.faults src.new ≡ P.faults src.old) }
        ensures read { IsErrOf result Unread.ReadFault → Rose (P.faults src.old) (P.faults src.new) }
    {
        if self.taken < self.filled {
            return Ok(());
        }
        let count = src.read(self.buffer.as_mut_slice())?;
        if count == 0 {
            return Err(Unread::BadPlan);
        }
        self.taken = 0;
        self.filled = count;
        Ok(())
    }

    /// Takes what is there of a line, and says whether its line feed is, which isn't added to the line.
    fn take_front(&mut self, line: &mut Vec<u8>) -> Result<bool, AllocError>
        ensures { IfOk result (λ ended. TakesFront self.old self.new line.old.items line.new.items ended) }
    {
        let left = &self.buffer[self.taken..self.filled];
        match split_once(left, b'\n') {
            Some((front, _)) => {
                line.extend_from_slice(front)?;
                self.taken += front.len() + 1;
                Ok(true)
            }
            None => {
                line.extend_from_slice(left)?;
                self.taken = self.filled;
                Ok(false)
            }
        }
    }
}
