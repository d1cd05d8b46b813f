ghost use Rattle.std.specs.Prelude.{◌≡◌, ◌≤◌, ◌<◌, ◌+◌, ◌-◌, ◌^◌, ◌++◌, ◌∷◌, [], List, Option, ℕ, IfErr, IfOk, OnErr, OnOk, length};
ghost use Rattle.deck_reader.specs.declared.batch.Account.{Account};
ghost use Rattle.deck_reader.specs.Batch.{Front, Run};
ghost use Rattle.night_shares.specs.Filing.{Files, Filing, window_filings};
ghost use Rattle.night_shares.specs.Jobs.{NightJob};
ghost use Rattle.night_shares.specs.Lines.{run_lines, text_of_lines};
ghost use Rattle.night_shares.specs.Batches.{run_strays};

use crate::jobs::{job_lines, read_run};
use crate::libraries::NightFront;
use crate::lines::MOST_BYTES;
use crate::payers::Payers;
use crate::rows::last_row;
use crate::shelf::{NightFile, Shelf};
use crate::stop::Stop;
use crate::window::Window;
use deck_reader::{Account, Flaw, Job};
use std::alloc::{AllocError, Global};

/// A night under way.
#[derive(Drop)]
pub struct Cutter {
    alloc: Global,
    /// How many chains there are.
    pub chains: usize,
    /// The accounts, in order.
    pub accounts: Payers,
    /// The libraries' cards.
    pub libraries: Vec<u8>,
    /// The window that isn't filed yet.
    pub window: Window,
    /// How many cards are stray.
    pub stray: u64,
    ghost some: { 0 < chains },
    ghost many: { length window.parts.items ≡ chains },
    ghost few: { window.bytes ≤ 4194304 },
}

impl Cutter {
    ghost use Rattle.night_shares.specs.Batches.{IsBeside};
    ghost use Rattle.night_shares.specs.Cutting.{IsCutter, IsLargeBehind, KeepsRest, NoneUnread, all_filed_of, cut_job, filed_of};
    ghost use Rattle.night_shares.specs.Held.{FilesFirst, IsWindow};
    ghost use Rattle.night_shares.specs.Running.{IsRun};
    ghost use Rattle.night_shares.specs.Stops.{RunCause, WriteCause};

    /// Behind the cards before the first job.
    pub fn new(
        alloc: Global,
        chains: usize,
        accounts: Vec<Account>,
        front: NightFront,
    ) -> Result<Cutter, AllocError>
        requires { 0 < chains }
        ensures cutter { IfOk result (IsCutter chains accounts.items front.libraries.items [] front.stray) }
        ensures chains { IfOk result (λ cutter. (cutter.chains ≡ chains) × (cutter.window.number ≡ 1) × (cutter.stray ≡ front.stray) × (cutter.libraries.items ≡ front.libraries.items)) }
    {
        Ok(Cutter {
            alloc,
            chains,
            accounts: Payers::new(accounts)?,
            window: Window::new(alloc, 1, chains)?,
            stray: u64::from(front.stray),
            libraries: front.libraries,
        })
    }

    /// Takes the lines of the next job. They are refused as too large where they have no room in a part behind the libraries.
    pub fn take_run<D: Shelf>(&mut self, run: &[u8], shelf: &mut D) -> Result<(), Stop>
        requires number { self.old.window.number < 2 ^ 63 }
        requires stray { self.old.stray ≤ 2 ^ 64 - 2 ^ 32 }
        ensures ok { (accounts : List Account) (libraries : List ℕ) (jobs : List NightJob) (stray : ℕ) (front : Front) (number : ℕ) (lines : Run) (before : Option (List Filing)) →
            IsCutter self.old.chains accounts libraries jobs stray self.old → NoneUnread accounts → front.accounts ≡ accounts →
            IsRun lines → run.now ≡ text_of_lines (run_lines lines) → Files before (D.filed shelf.old) (filed_of self.old.chains libraries jobs) →
            OnOk result (IsCutter self.old.chains accounts libraries (jobs ++ cut_job front number lines ∷ []) (stray + run_strays lines) self.new
            × Files before (D.filed shelf.new) (filed_of self.old.chains libraries (jobs ++ cut_job front number lines ∷ []))) }
        ensures err { (accounts : List Account) (libraries : List ℕ) (jobs : List NightJob) (stray : ℕ) (front : Front) (number : ℕ) (lines : Run) (before : Option (List Filing)) →
            IsCutter self.old.chains accounts libraries jobs stray self.old → NoneUnread accounts → front.accounts ≡ accounts →
            IsRun lines → run.now ≡ text_of_lines (run_lines lines) → Files before (D.filed shelf.old) (filed_of self.old.chains libraries jobs) →
            OnErr result (FilesFirst before (D.filed shelf.new) (filed_of self.old.chains libraries (jobs ++ cut_job front number lines ∷ []))) }
        ensures fits { OnOk result (length self.old.libraries.items + length run.now ≤ 4194304) }
        ensures same { (self.new.chains ≡ self.old.chains) × (self.new.libraries ≡ self.old.libraries) }
        ensures number { OnOk result (self.new.window.number ≤ self.old.window.number + 1) }
        ensures stray { OnOk result (self.new.stray ≤ self.old.stray + (2 ^ 32 - 1)) }
        ensures kept { OnOk result (D.faults shelf.new ≡ D.faults shelf.old) }
        ensures cause { IfErr result (λ stop. RunCause stop (D.faults shelf.old) (D.faults shelf.new)
            ((libraries : List ℕ) (lines : Run) → self.old.libraries.items ≡ libraries → IsRun lines → run.now ≡ text_of_lines (run_lines lines) → IsLargeBehind libraries lines)) }
    {
        let taken = self.libraries.len();
        if taken > MOST_BYTES || run.len() > MOST_BYTES - taken {
            return Err(Stop::TooLarge);
        }
        let batch = read_run(self.alloc, run)?;
        self.stray += u64::from(batch.stray);
        let Some(job) = batch.jobs.as_slice().first() else {
            return Ok(());
        };
        let lines = job_lines(run);
        if !self.window.has_room(MOST_BYTES - taken, lines.len()) {
            self.next_window(shelf)?;
        }
        self.enrol(job, lines)?;
        Ok(())
    }

    /// Files the window, and begins the next one.
    fn next_window<D: Shelf>(&mut self, shelf: &mut D) -> Result<(), Stop>
        requires { self.old.window.number < 2 ^ 63 }
        ensures ok { (libraries : List ℕ) (number : ℕ) (jobs : List NightJob) → IsWindow self.old.chains libraries number jobs self.old.window →
            OnOk result (IsWindow self.old.chains libraries (number + 1) [] self.new.window × Files (D.filed shelf.old) (D.filed shelf.new) (window_filings self.old.chains libraries number jobs)) }
        ensures err { (libraries : List ℕ) (number : ℕ) (jobs : List NightJob) → IsWindow self.old.chains libraries number jobs self.old.window →
            OnErr result (FilesFirst (D.filed shelf.old) (D.filed shelf.new) (window_filings self.old.chains libraries number jobs)) }
        ensures alone { KeepsRest self.old self.new }
        ensures fresh { OnOk result ((self.new.window.jobs ≡ 0) × (self.new.window.bytes ≡ 0) × (self.new.window.number ≡ self.old.window.number + 1)) }
        ensures kept { OnOk result (D.faults shelf.new ≡ D.faults shelf.old) }
        ensures cause { IfErr result (λ stop. WriteCause stop (D.faults shelf.old) (D.faults shelf.new)) }
    {
        self.window.file(self.alloc, shelf)?;
        self.window = Window::new(self.alloc, self.window.number + 1, self.chains)?;
        Ok(())
    }

    /// Puts a job into the window.
    fn enrol(&mut self, job: &Job, lines: &[u8]) -> Result<(), AllocError>
        requires jobs { self.old.window.jobs < 2000 }
        requires bytes { self.old.window.bytes + length lines.now ≤ 4194304 }
        ensures job { (number : ℕ) (jobs : List NightJob) (new : NightJob) → IsWindow self.old.chains self.old.libraries.items number jobs self.old.window →
            IsBeside self.old.accounts new.job job.now → new.text ≡ lines.now →
            OnOk result (IsWindow self.old.chains self.old.libraries.items number (jobs ++ new ∷ []) self.new.window) }
        ensures alone { KeepsRest self.old self.new }
        ensures number { self.new.window.number ≡ self.old.window.number }
    {
        match self.accounts.find(&job.account_name) {
            Some(account) => {
                let chain = account % self.chains;
                self.window.add(self.libraries.as_slice(), chain, lines)
            }
            None => {
                let flaw = job.flaw.unwrap_or(Flaw::AccountUnknown);
                self.window.add_refused(flaw, job, lines.len())
            }
        }
    }

    /// Ends the night: files the last window, and the plan's last line.
    pub fn finish<D: Shelf>(self, shelf: &mut D) -> Result<(), Stop>
        ensures ok { (accounts : List Account) (libraries : List ℕ) (jobs : List NightJob) (stray : ℕ) (before : Option (List Filing)) → IsCutter self.chains accounts libraries jobs stray self →
            Files before (D.filed shelf.old) (filed_of self.chains libraries jobs) → OnOk result (Files before (D.filed shelf.new) (all_filed_of self.chains libraries jobs stray)) }
        ensures err { (accounts : List Account) (libraries : List ℕ) (jobs : List NightJob) (stray : ℕ) (before : Option (List Filing)) → IsCutter self.chains accounts libraries jobs stray self →
            Files before (D.filed shelf.old) (filed_of self.chains libraries jobs) → OnErr result (FilesFirst before (D.filed shelf.new) (all_filed_of self.chains libraries jobs stray)) }
        ensures kept { OnOk result (D.faults shelf.new ≡ D.faults shelf.old) }
        ensures cause { IfErr result (λ stop. WriteCause stop (D.faults shelf.old) (D.faults shelf.new)) }
    {
        if self.window.jobs > 0 {
            self.window.file(self.alloc, shelf)?;
        }
        let row = last_row(self.alloc, self.stray)?;
        shelf.file(NightFile::Plan, row.as_slice())?;
        Ok(())
    }
}
