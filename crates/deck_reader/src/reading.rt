ghost use Rattle.std.specs.Prelude.{◌≡◌, ◌≤◌, ◌++◌, [], ℕ, List, Option, None, Some, true, false, IfOk, OnOk, length};
ghost use Rattle.deck_reader.specs.declared.batch.Account.{Account};
ghost use Rattle.deck_reader.specs.Batch.{batch_of};
ghost use Rattle.deck_reader.specs.Forms.{is_head};
ghost use Rattle.deck_reader.specs.JobView.{JobView};

use crate::batch::{Account, Batch, Job};
use crate::library::{self, KeptLibrary};
use crate::listed::Listed;
use crate::open_job::OpenJob;
use crate::open_library::OpenLibrary;
use crate::queue::Queue;
use crate::{accounts, forms};
use std::alloc::{AllocError, Global};
use std::mem;

/// Where in a batch the next card stands.
#[derive(Drop)]
pub enum Stage {
    /// Before the first job, and in no library that is kept.
    Front,
    /// Before the first job, in a library that is kept, behind the card that begins it.
    Library(OpenLibrary),
    /// In a job, behind its job card.
    Inside(OpenJob),
    /// Behind a job's end card.
    Outside,
}

/// What is kept of the cards that have come.
#[derive(Drop)]
pub struct Reading {
    /// The accounts opened, or given.
    pub accounts: Listed<Account>,
    /// Whether they are given, so that no card opens one.
    pub given: bool,
    /// The libraries whose cards have all come.
    pub shelf: Listed<KeptLibrary>,
    /// The jobs whose cards have all come, but for those that were taken.
    pub jobs: Queue<Job>,
    /// How many cards began a job.
    pub heads: u32,
    /// How many cards were stray.
    pub stray: u32,
    /// Where the next card stands.
    pub stage: Stage,
    ghost few: { length accounts ≤ 500 },
}

impl Reading {
    ghost use Rattle.deck_reader.specs.Reading.{IsReading, TakesCard, TakesControl, Closes, is_front, put_back, with_stray};

    /// Before the first card.
    pub fn new(alloc: Global) -> Reading
        ensures { IsReading None result [] }
    {
        Reading {
            accounts: Listed::new(alloc),
            given: false,
            shelf: Listed::new(alloc),
            jobs: Queue::new(alloc),
            heads: 0,
            stray: 0,
            stage: Stage::Front,
        }
    }

    /// Before the first card, where these are the accounts.
    pub fn with_accounts(alloc: Global, accounts: Listed<Account>) -> Reading
        requires { length accounts ≤ 500 }
        ensures { IsReading (Some accounts) result [] }
    {
        Reading {
            accounts,
            given: true,
            shelf: Listed::new(alloc),
            jobs: Queue::new(alloc),
            heads: 0,
            stray: 0,
            stage: Stage::Front,
        }
    }

    /// Takes the next card.
    pub fn take_card(&mut self, alloc: Global, card: &[u8]) -> Result<(), AllocError>
        ensures { TakesCard self.old self.new card.now result }
    {
        if forms::is_head(card) {
            return self.begin_job(alloc, card);
        }
        match &mut self.stage {
            Stage::Front | Stage::Library(_) => return self.take_front_card(alloc, card),
            Stage::Inside(job) => {
                if forms::is_end(card) {
                    self.close(alloc)?;
                } else {
                    job.push(alloc, card)?;
                }
            }
            Stage::Outside => self.count_stray(card),
        }
        Ok(())
    }

    /// Takes a card before the first head.
    fn take_front_card(&mut self, alloc: Global, card: &[u8]) -> Result<(), AllocError>
        requires stage { is_front self.old.stage ≡ true }
        requires other { is_head card.now ≡ false }
        ensures { TakesCard self.old self.new card.now result }
    {
        if forms::is_control_card(card) {
            self.close(alloc)?;
            return self.take_control_card(alloc, card);
        }
        match &mut self.stage {
            Stage::Library(library) => library.push(alloc, card)?,
            _ => self.count_stray(card),
        }
        Ok(())
    }

    /// Takes a control card before the first head. It begins a library, or opens an account, or is stray.
    fn take_control_card(&mut self, alloc: Global, card: &[u8]) -> Result<(), AllocError>
        ensures { OnOk result (TakesControl self.old self.new card.now) }
    {
        self.stage = Stage::Front;
        if let Some(name) = library::free_name(self.shelf.as_slice(), card) {
            self.stage = Stage::Library(OpenLibrary::new(alloc, name));
            return Ok(());
        }
        let opened = accounts::open(&mut self.accounts, self.given, card)?;
        if !opened {
            self.count_stray(card);
        }
        Ok(())
    }

    /// Begins the job of a job card, and ends what was before.
    fn begin_job(&mut self, alloc: Global, head: &[u8]) -> Result<(), AllocError>
        requires { is_head head.now ≡ true }
        ensures { TakesCard self.old self.new head.now result }
    {
        self.close(alloc)?;
        self.heads = self.heads.saturating_add(1);
        let job = OpenJob::new(
            alloc,
            self.accounts.as_slice(),
            self.shelf.as_slice(),
            self.heads,
            head,
        )?;
        self.stage = Stage::Inside(job);
        Ok(())
    }

    /// Ends the library or the job under way, where there is one.
    fn close(&mut self, alloc: Global) -> Result<(), AllocError>
        ensures { OnOk result (Closes self.old self.new) }
    {
        match mem::replace(&mut self.stage, Stage::Outside) {
            Stage::Front | Stage::Outside => Ok(()),
            Stage::Library(library) => self.shelf.push(library.close(alloc)?),
            Stage::Inside(job) => self.jobs.push(job.close(alloc)),
        }
    }

    /// Counts a stray card, unless it is blank.
    fn count_stray(&mut self, card: &[u8])
        ensures { self.new ≡ record self.old { stray = with_stray self.old.stray card.now } }
    {
        if !card.is_empty() {
            self.stray = self.stray.saturating_add(1);
        }
    }

    /// The batch, whose cards have all come, with the jobs that weren't taken.
    pub fn finish(mut self, alloc: Global) -> Result<Batch, AllocError>
        ensures batch { (given : Option (List Account)) (taken : List JobView) (cards : List (List ℕ)) → IsReading given (put_back taken self) cards →
            IfOk result (λ b. record b { jobs = taken ++ b.jobs } ≡ batch_of given cards) }
        ensures few { IfOk result (λ b. length b.accounts ≤ 500) }
    {
        self.close(alloc)?;
        Ok(Batch {
            accounts: self.accounts,
            jobs: self.jobs.into_listed(),
            stray: self.stray,
        })
    }
}
