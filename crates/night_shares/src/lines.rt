ghost use Rattle.std.specs.Prelude.{◌≡◌, ◌≤◌, ◌<◌, [], List, Option, ℕ, Some, true, IfErr, IfOk, OnOk, length, vec_len};
ghost use Rattle.batch_io.specs.Causes.{HasCause};
ghost use Rattle.night_shares.specs.Endings.{EndsLine};
ghost use Rattle.night_shares.specs.Stops.{ReadCause};

use crate::stop::Stop;
use batch_io::{ReadFailed, Source};
use deck_reader::split_once;
use std::alloc::{AllocError, Global};

/// How many bytes are read at a time.
const PIECE: usize = 65_536;

/// The most bytes of a batch.
pub const MOST_BYTES: usize = 4_194_304;

/// The lines of a source, one after the other.
#[derive(Drop)]
pub struct Lines {
    /// Room for what is read at a time.
    buffer: Vec<u8>,
    /// Where in the buffer the bytes begin that weren't taken yet.
    from: usize,
    /// Where they end.
    to: usize,
    ghost before: { from ≤ to },
    ghost within: { to ≤ vec_len buffer },
    ghost piece: { vec_len buffer ≡ 65536 },
}

impl Lines {
    ghost use Rattle.night_shares.specs.Reading.{Fills, HasLongFirst, Moves, TakesLine, to_come};

    /// The lines of a source of which nothing was read.
    pub fn new(alloc: Global) -> Result<Lines, AllocError>
        ensures { IfOk result (λ lines. (left : Option (List ℕ)) → to_come lines left ≡ left) }
    {
        Ok(Lines {
            buffer: Vec::from_elem(alloc, 0, PIECE)?,
            from: 0,
            to: 0,
        })
    }

    /// Puts the next line into `line`, which is empty, with a line feed behind it, and says whether there was one.
    pub fn next<S: Source>(&mut self, src: &mut S, line: &mut Vec<u8>) -> Result<bool, Stop>
        requires { line.old.items ≡ [] }
        ensures line { (bytes : List ℕ) → to_come self.old (S.left src.old) ≡ Some bytes →
            IfOk result (TakesLine bytes line.new.items (to_come self.new (S.left src.new))) }
        ensures some { IfOk result (λ some. some ≡ true → 0 < length line.new.items) }
        ensures kept { OnOk result (S.faults src.new ≡ S.faults src.old) }
        ensures err { IfErr result (λ stop. ReadCause stop (S.faults src.old) (S.faults src.new)
            ((bytes : List ℕ) → to_come self.old (S.left src.old) ≡ Some bytes → HasLongFirst bytes)) }
    {
        loop {
            if self.take_line(line)? {
                return Ok(true);
            }
            if line.len() > MOST_BYTES {
                return Err(Stop::TooLarge);
            }
            if !self.fill(src)? {
                return Ok(end_line(line)?);
            }
        }
    }

    /// Adds what is held of the next line, with its line feed where that has come, and says whether it has.
    fn take_line(&mut self, line: &mut Vec<u8>) -> Result<bool, AllocError>
        ensures { IfOk result (Moves self.old self.new line.old.items line.new.items) }
    {
        let held = &self.buffer[self.from..self.to];
        let Some((front, _)) = split_once(held, b'\n') else {
            line.extend_from_slice(held)?;
            self.from = self.to;
            return Ok(false);
        };
        line.extend_from_slice(front)?;
        line.push(b'\n')?;
        self.from += front.len() + 1;
        Ok(true)
    }

    /// Reads the next bytes, where none are held, and says whether there were any: there are none at the end.
    fn fill<S: Source>(&mut self, src: &mut S) -> Result<bool, ReadFailed>
        ensures ok { IfOk result (Fills self.new (S.left src.old) (S.left src.new)) }
        ensures cause { HasCause (S.faults src.old) (S.faults src.new) result }
    {
        self.from = 0;
        self.to = 0;
        self.to = src.read(self.buffer.as_mut_slice())?;
        Ok(self.to > 0)
    }
}

/// Ends a last line, which has no line feed, unless it is empty, and says whether it isn't.
fn end_line(line: &mut Vec<u8>) -> Result<bool, AllocError>
    ensures { IfOk result (EndsLine line.old.items line.new.items) }
{
    if line.is_empty() {
        return Ok(false);
    }
    line.push(b'\n')?;
    Ok(true)
}
