ghost use Rattle.std.specs.Prelude.{◌≡◌, ◌<◌, [], List, Option, ℕ, None, Some, IfErr, IfOk, OnOk, length};
ghost use Rattle.deck_reader.specs.Cards.{pieces};
ghost use Rattle.night_shares.specs.Lines.{begins_job};
ghost use Rattle.night_shares.specs.Plan.{row};
ghost use Rattle.night_shares.specs.Stops.{ReadCause};

use crate::lines::{Lines, MOST_BYTES};
use crate::stop::Stop;
use crate::words::begins_job;
use batch_io::Source;
use std::alloc::{AllocError, Global};

/// The cards of a night, which are handed out run by run: those before the first job, and then each job card with the cards behind
/// it up to the next.
#[derive(Drop)]
pub struct Runs {
    alloc: Global,
    lines: Lines,
    /// The line of the next job card, which has been read.
    head: Option<Vec<u8>>,
}

impl Runs {
    ghost use Rattle.std.specs.Option.{option_map};
    ghost use Rattle.night_shares.specs.Running.{AtHead, IsLargeRun, IsLargeUpTo, TakesNext, TakesUpTo, bytes_to_come, head_of};

    /// The cards of a source of which nothing was read.
    pub fn new(alloc: Global) -> Result<Runs, AllocError>
        ensures come { IfOk result (λ runs. (left : Option (List ℕ)) → bytes_to_come runs left ≡ left) }
        ensures head { IfOk result (λ runs. head_of runs ≡ None) }
    {
        Ok(Runs {
            alloc,
            lines: Lines::new(alloc)?,
            head: None,
        })
    }

    /// The lines before the first job.
    pub fn front<S: Source>(&mut self, src: &mut S) -> Result<Vec<u8>, Stop>
        requires { head_of self.old ≡ None }
        ensures front { (bytes : List ℕ) → bytes_to_come self.old (S.left src.old) ≡ Some bytes →
            IfOk result (λ text. TakesUpTo [] bytes (head_of self.new) (bytes_to_come self.new (S.left src.new)) text.items) }
        ensures kept { OnOk result (S.faults src.new ≡ S.faults src.old) }
        ensures err { IfErr result (λ stop. ReadCause stop (S.faults src.old) (S.faults src.new)
            ((bytes : List ℕ) → bytes_to_come self.old (S.left src.old) ≡ Some bytes → IsLargeUpTo [] (pieces bytes))) }
    {
        self.up_to_head(src, Vec::new(self.alloc))
    }

    /// The lines of the next job, where there is one.
    pub fn next<S: Source>(&mut self, src: &mut S) -> Result<Option<Vec<u8>>, Stop>
        ensures run { (lines : List (List ℕ)) → AtHead (head_of self.old) (bytes_to_come self.old (S.left src.old)) lines →
            IfOk result (λ run. TakesNext lines (head_of self.new) (bytes_to_come self.new (S.left src.new)) (option_map (λ text. text.items) run)) }
        ensures kept { OnOk result (S.faults src.new ≡ S.faults src.old) }
        ensures err { IfErr result (λ stop. ReadCause stop (S.faults src.old) (S.faults src.new)
            ((lines : List (List ℕ)) → AtHead (head_of self.old) (bytes_to_come self.old (S.left src.old)) lines → IsLargeRun lines)) }
    {
        let Some(head) = self.head.take() else {
            return Ok(None);
        };
        let run = self.up_to_head(src, head)?;
        Ok(Some(run))
    }

    /// Adds the lines up to the next job card, which is kept.
    fn up_to_head<S: Source>(&mut self, src: &mut S, text: Vec<u8>) -> Result<Vec<u8>, Stop>
        requires { head_of self.old ≡ None }
        ensures taken { (bytes : List ℕ) → bytes_to_come self.old (S.left src.old) ≡ Some bytes →
            IfOk result (λ all. TakesUpTo text.items bytes (head_of self.new) (bytes_to_come self.new (S.left src.new)) all.items) }
        ensures kept { OnOk result (S.faults src.new ≡ S.faults src.old) }
        ensures err { IfErr result (λ stop. ReadCause stop (S.faults src.old) (S.faults src.new)
            ((bytes : List ℕ) → bytes_to_come self.old (S.left src.old) ≡ Some bytes → IsLargeUpTo text.items (pieces bytes))) }
    {
        let mut text = text;
        while text.len() <= MOST_BYTES {
            let mut line = Vec::new(self.alloc);
            if !self.lines.next(src, &mut line)? {
                return Ok(text);
            }
            if is_head(line.as_slice()) {
                self.head = Some(line);
                return Ok(text);
            }
            text.extend_from_slice(line.as_slice())?;
        }
        Err(Stop::TooLarge)
    }
}

/// Whether a line, which has its line feed, begins a job.
fn is_head(line: &[u8]) -> bool
    requires { 0 < length line.now }
    ensures { (front : List ℕ) → line.now ≡ row front → result ≡ begins_job front }
{
    begins_job(&line[..line.len() - 1])
}
