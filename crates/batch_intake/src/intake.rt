ghost use Rattle.std.specs.Prelude.{◌≡◌, ◌++◌, [], List, ℕ, Option, None, Some, IfErr, IfOk, IsErr, IsErrOf, OnOk, false, map, true};
ghost use Rattle.deck_reader.specs.declared.batch.Account.{Account};
ghost use Rattle.deck_reader.specs.Batch.{known_accounts, too_large};
ghost use Rattle.deck_reader.specs.Fed.{StandsFor};
ghost use Rattle.deck_reader.specs.JobView.{JobView};
ghost use Rattle.batch_intake.specs.Taking.{Ends, HasRead, ReadsOn, StopsReading, jobs_by, reader_of, stray_of};

use crate::halt::Halt;
use crate::reading::feed_piece;
use batch_io::Source;
use deck_reader::{Job, Reader};
use std::alloc::{AllocError, Global};
use std::sync::Arc;

/// A batch that is read while its jobs run.
#[derive(Drop)]
pub struct Intake {
    alloc: Global,
    /// The reader, until the input has ended.
    reader: Option<Reader>,
    /// How many stray cards there are, once it has.
    stray: u32,
    /// The jobs by now.
    pub jobs: Vec<Arc<Job>>,
}

impl Intake {
    /// Of a reader from which no job was taken.
    pub fn open(alloc: Global, reader: Reader) -> Result<Intake, AllocError>
        ensures { (given : Option (List Account)) (left : Option (List ℕ)) (accounts : List Account) (input : List ℕ) → StandsFor given reader [] input →
            known_accounts given input ≡ Some accounts → IfOk result (λ intake. HasRead given intake left accounts input) }
    {
        let mut reader = reader;
        let mut jobs = Vec::new(alloc);
        take_ended(alloc, &mut reader, &mut jobs)?;
        Ok(Intake {
            alloc,
            reader: Some(reader),
            stray: 0,
            jobs,
        })
    }

    /// Of a whole batch.
    pub fn closed(alloc: Global, jobs: Vec<Job>, stray: u32) -> Result<Intake, AllocError>
        ensures { IfOk result (λ intake. (reader_of intake ≡ None) × (stray_of intake ≡ stray) × (jobs_by intake ≡ jobs.items)) }
    {
        let mut shared = Vec::with_capacity(alloc, jobs.len())?;
        share_all(alloc, &mut shared, jobs)?;
        Ok(Intake {
            alloc,
            reader: None,
            stray,
            jobs: shared,
        })
    }

    /// Whether the input hasn't ended yet.
    pub fn is_open(&self) -> bool
        ensures { result ≡ false → reader_of self.now ≡ None }
    {
        self.reader.is_some()
    }

    /// How many stray cards there are, where the input has ended.
    pub fn stray(&self) -> u32
        ensures { result ≡ stray_of self.now }
    {
        self.stray
    }

    /// Reads the next piece, and takes the jobs that it ends; at the end of the input, the last ones.
    pub fn read_on<S: Source>(&mut self, src: &mut S) -> Result<(), Halt>
        ensures ok { OnOk result (ReadsOn self.old self.new (S.left src.old) (S.left src.new) (S.faults src.old) (S.faults src.new)) }
        ensures err { IfErr result (λ halt. StopsReading self.old (S.left src.old) (S.left src.new) (S.faults src.old) (S.faults src.new) halt) }
    {
        let Some(reader) = &mut self.reader else {
            return Ok(());
        };
        if feed_piece(reader, src)? {
            take_ended(self.alloc, reader, &mut self.jobs)?;
            return Ok(());
        }
        self.end()
    }

    /// Takes the last jobs of an input that has ended.
    fn end(&mut self) -> Result<(), Halt>
        ensures ok { OnOk result (Ends self.old self.new) }
        ensures large { (given : Option (List Account)) (left : Option (List ℕ)) (accounts : List Account) (input : List ℕ) →
            HasRead given self.old left accounts input → IsErrOf result Halt.TooLarge → too_large input ≡ true }
        ensures going { IsErr result → reader_of self.old ≡ None → ⊥ }
        ensures read { IsErrOf result Halt.ReadFault → ⊥ }
        ensures write { IsErrOf result Halt.WriteFault → ⊥ }
    {
        let Some(reader) = self.reader.take() else {
            return Ok(());
        };
        let batch = reader.finish()?;
        self.stray = batch.stray;
        share_all(self.alloc, &mut self.jobs, batch.jobs.into_vec())?;
        Ok(())
    }
}

/// Takes the jobs that have ended, so that threads can share each.
fn take_ended(
    alloc: Global,
    reader: &mut Reader,
    jobs: &mut Vec<Arc<Job>>,
) -> Result<(), AllocError>
    ensures stands { (given : Option (List Account)) (input : List ℕ) → StandsFor given reader.old (map (λ j. j.value) jobs.old.items) input →
        OnOk result (StandsFor given reader.new (map (λ j. j.value) jobs.new.items) input) }
    ensures more { OnOk result ((rest : List JobView) × (map (λ j. j.value) jobs.new.items ≡ map (λ j. j.value) jobs.old.items ++ rest)) }
{
    while let Some(job) = reader.take_job() {
        jobs.push(Arc::new(alloc, job)?)?;
    }
    Ok(())
}

/// Adds jobs, so that threads can share each.
fn share_all(alloc: Global, all: &mut Vec<Arc<Job>>, jobs: Vec<Job>) -> Result<(), AllocError>
    ensures { OnOk result (map (λ j. j.value) all.new.items ≡ map (λ j. j.value) all.old.items ++ jobs.items) }
{
    for job in jobs {
        all.push(Arc::new(alloc, job)?)?;
    }
    Ok(())
}
