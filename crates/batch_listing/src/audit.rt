ghost use Rattle.std.specs.Prelude.{◌≡◌, ◌≤◌, ◌⊎◌, ◌+◌, ◌-◌, ◌^◌, ◌++◌, ◌↔◌, ◌∷◌, [], List, None, Some, IfOk, OnOk, OnErr, IfSome, IsSome, false, true, length, min, map, slice_index};
ghost use Rattle.deck_reader.specs.JobView.{JobView};
ghost use Rattle.account_book.specs.BookView.{openings_of};
ghost use Rattle.account_book.specs.Charges.{charge};
ghost use Rattle.account_book.specs.Places.{claim_of, is_accepted, lowered, settled};
ghost use Rattle.algolw_meaning.specs.Running.{job_result};
ghost use Rattle.algolw_meaning.specs.Charging.{charged, decision, decision_at};
ghost use Rattle.batch_listing.specs.Texts.{closing};
ghost use Rattle.batch_listing.specs.Listing.{accepted, body, closed_accounts, closing_lines, section, verdict};
ghost use Rattle.batch_listing.specs.Behind.{Fits, IsBehind};
ghost use Rattle.batch_summary.specs.Tally.{tally_with};
ghost use Rattle.batch_listing.specs.Tallies.{ended_so, entry_by, sections_tally};

use crate::closing::with_balances;
use crate::lines::{self, heading};
use crate::verdict::{Verdict, decide};
use account_book::{Book, Decision, charge_of};
use batch_summary::{Entry, Outcome, Tally};
use deck_reader::{Account, Job};
use job_runner::{Brought, Desk, Ended, Ending, Shelf, run_job};
use std::alloc::{AllocError, Global};
use std::sync::Arc;

/// Makes the sections of a batch, one after the other, and then the closing lines. Whatever is brought to it, each
/// section is the one that its job has at its place.
#[derive(Drop)]
pub struct Audit {
    book: Book,
    tally: Tally,
    reruns: u32,
    /// What became of the job of the last section.
    last: Option<Decision>,
}

/// The tally of the heading alone.
fn heading_tally() -> Tally
    ensures { result ≡ sections_tally [] [] }
{
    Tally {
        normal: 0,
        fault: 0,
        limit: 0,
        diagnosed: 0,
        refused: 0,
        charges: 0,
        bytes: heading().len() as u64,
    }
}

impl Audit {
    /// The audit before the first section. Each account of the book must still have its opening.
    pub fn new(book: Book) -> Result<Audit, AllocError>
        requires { book.balances ≡ openings_of book.accounts }
        ensures { IfOk result (λ audit. audit
            ≡ record { book = book; tally = sections_tally [] []; reruns = 0; last = None }) }
    {
        Ok(Audit {
            book,
            tally: heading_tally(),
            reruns: 0,
            last: None,
        })
    }

    /// The section of the next job, behind those whose sections were made. A result that was brought is used where it
    /// is for an equal job; otherwise an accepted job is run at the desk, which is made for the first one. Where memory is
    /// wanting, the audit stays as it was.
    pub fn section(
        &mut self,
        alloc: Global,
        job: &Arc<Job>,
        brought: Option<Brought>,
        desk: &mut Option<Desk>,
    ) -> Result<Vec<u8>, AllocError>
        // The section is the one at its place, whatever was brought, and the job has its place behind it.
        ensures text { (earlier : List JobView) → IsBehind self.old.book earlier → IfOk result (λ v.
            v.items ≡ section (openings_of self.old.book.accounts) earlier job.now.value) }
        ensures behind { (earlier : List JobView) → IsBehind self.old.book earlier
            → OnOk result (IsBehind self.new.book (earlier ++ job.now.value ∷ [])) }
        ensures accounts { self.new.book.accounts ≡ self.old.book.accounts }
        ensures kept { OnErr result (self.new ≡ self.old) }

        // The tally is that of the sections so far.
        ensures tally { (earlier : List JobView) → IsBehind self.old.book earlier
            → self.old.tally ≡ sections_tally (openings_of self.old.book.accounts) earlier
            → OnOk result (self.new.tally
            ≡ sections_tally (openings_of self.old.book.accounts) (earlier ++ job.now.value ∷ [])) }

        // The job is run exactly where it is accepted and no result for it was brought.
        ensures spared { (earlier : List JobView) → IsBehind self.old.book earlier
            → (accepted (openings_of self.old.book.accounts) earlier job.now.value ≡ false) ⊎ Fits brought job.now.value
            → (desk.new ≡ desk.old) × (self.new.reruns ≡ self.old.reruns) }
        ensures rerun { (earlier : List JobView) → IsBehind self.old.book earlier
            → accepted (openings_of self.old.book.accounts) earlier job.now.value ≡ true
            → (Fits brought job.now.value → ⊥)
            → OnOk result (self.new.reruns ≡ min (self.old.reruns + 1) (2 ^ 32 - 1)) }

        // What became of the job is known behind it.
        ensures last { (earlier : List JobView) → IsBehind self.old.book earlier
            → OnOk result (self.new.last
            ≡ Some (decision_at (openings_of self.old.book.accounts) earlier job.now.value)) }
    {
        let mut out = Vec::new(alloc);
        lines::push_title(&mut out, job)?;
        let decision = self.push_body(alloc, &mut out, job, brought, desk)?;
        self.last = Some(decision);
        Ok(out)
    }

    /// What became of the job of the last section; none before the first one.
    pub fn decision(&self) -> Option<Decision>
        ensures { result ≡ self.now.last }
    {
        self.last
    }

    /// The accounts of the batch, with their openings, and their balances behind the sections that were made.
    pub fn book(&self) -> &Book
        ensures { result.now ≡ self.now.book }
    {
        &self.book
    }

    /// For how many sections the audit ran the job itself. The count stops at the end of its type.
    pub fn reruns(&self) -> u32
        ensures { result ≡ self.now.reruns }
    {
        self.reruns
    }

    /// What the heading and the sections so far come to.
    pub fn tally(&self) -> Tally
        ensures { result ≡ self.now.tally }
    {
        self.tally
    }

    /// The closing lines behind the sections that were made.
    pub fn closing(&self, alloc: Global, stray: u32) -> Result<Vec<u8>, AllocError>
        ensures { (jobs : List JobView) → IsBehind self.now.book jobs → IfOk result (λ v.
            v.items ≡ closing (closing_lines (openings_of self.now.book.accounts) jobs self.now.book.accounts) stray) }
    {
        let mut out = Vec::new(alloc);
        lines::push_closing_title(&mut out)?;
        lines::push_balances(&mut out, self.book.accounts(), self.book.balances())?;
        lines::push_stray(&mut out, stray)?;
        Ok(out)
    }

    /// The accounts, each with its balance behind the sections that were made as its opening.
    pub fn closing_accounts(&self, alloc: Global) -> Result<Vec<Account>, AllocError>
        ensures { (jobs : List JobView) → IsBehind self.now.book jobs → IfOk result (λ v.
            v.items ≡ closed_accounts (openings_of self.now.book.accounts) jobs self.now.book.accounts) }
    {
        with_balances(alloc, self.book.accounts(), self.book.balances())
    }

    /// Adds the body of a section, and settles what its job is charged. Gives what became of the job.
    fn push_body(
        &mut self,
        alloc: Global,
        out: &mut Vec<u8>,
        job: &Arc<Job>,
        brought: Option<Brought>,
        desk: &mut Option<Desk>,
    ) -> Result<Decision, AllocError>
        ensures text { OnOk result (out.new.items ≡ out.old.items
            ++ body (verdict (slice_index self.old.book.balances) job.now.value) job.now.value) }
        ensures book { OnOk result (self.new.book.balances ≡ settled self.old.book.balances (charged job.now.value)) }
        ensures accounts { self.new.book.accounts ≡ self.old.book.accounts }
        ensures tally { OnOk result (self.new.tally ≡ tally_with self.old.tally
            (entry_by (verdict (slice_index self.old.book.balances) job.now.value) job.now.value (length out.new.items))) }
        ensures decided { IfOk result (λ became. became
            ≡ decision (slice_index self.old.book.balances) job.now.value) }
        ensures kept { OnErr result (self.new ≡ self.old) }
        ensures spared { ((is_accepted (slice_index self.old.book.balances) (claim_of job.now.value) ≡ false)
            ⊎ Fits brought job.now.value)
            → (desk.new ≡ desk.old) × (self.new.reruns ≡ self.old.reruns) }
        ensures rerun { is_accepted (slice_index self.old.book.balances) (claim_of job.now.value) ≡ true
            → (Fits brought job.now.value → ⊥)
            → OnOk result (self.new.reruns ≡ min (self.old.reruns + 1) (2 ^ 32 - 1)) }
    {
        match decide(&self.book, job) {
            Verdict::Flawed(flaw) => {
                lines::push_flawed(out, flaw)?;
                self.count(Outcome::Refused, 0, out.as_slice())?;
                Ok(Decision::Flawed(flaw))
            }
            Verdict::Refused { reserve, balance } => {
                lines::push_refused(out, reserve, balance)?;
                self.count(Outcome::Refused, 0, out.as_slice())?;
                Ok(Decision::Refused { reserve, balance })
            }
            Verdict::Accepted(account) => match fitting(brought, job) {
                Some(ended) => self.push_ended(out, account, &ended),
                None => {
                    let ended = run_here(alloc, desk, job)?;
                    let decision = self.push_ended(out, account, &ended)?;
                    self.reruns = self.reruns.saturating_add(1);
                    Ok(decision)
                }
            },
        }
    }

    /// Adds the body of a job that has ended, and settles its charge. Gives what became of the job.
    fn push_ended(
        &mut self,
        out: &mut Vec<u8>,
        account: u32,
        ended: &Ended,
    ) -> Result<Decision, AllocError>
        requires { charge (job_result ended.now.job).counts ≤ slice_index self.old.book.balances account }
        ensures text { OnOk result (out.new.items ≡ out.old.items ++ (job_result ended.now.job).body) }
        ensures book { OnOk result (self.new.book.balances
            ≡ lowered self.old.book.balances (Some account) (charge (job_result ended.now.job).counts)) }
        ensures accounts { self.new.book.accounts ≡ self.old.book.accounts }
        ensures tally { OnOk result (self.new.tally ≡ tally_with self.old.tally (record {
          outcome = ended_so (job_result ended.now.job).ending;
          charge = charge (job_result ended.now.job).counts;
          bytes = length out.new.items;
        })) }
        ensures reruns { self.new.reruns ≡ self.old.reruns }
        ensures decided { IfOk result (λ became. became ≡ Decision.Charged (job_result ended.now.job).counts) }
        ensures kept { OnErr result (self.new ≡ self.old) }
    {
        out.extend_from_slice(ended.body())?;
        let counts = ended.counts();
        let charge = charge_of(counts);
        self.count(ended_so(ended.ending()), charge, out.as_slice())?;
        self.book.settle(account, charge);
        Ok(Decision::Charged(counts))
    }

    /// Counts a section. A number that would pass its type is want of memory: no listing has so many bytes.
    fn count(&mut self, outcome: Outcome, charge: u64, section: &[u8]) -> Result<(), AllocError>
        ensures tally { OnOk result (self.new.tally ≡ tally_with self.old.tally
            (record { outcome = outcome; charge = charge; bytes = length section.now })) }
        ensures book { self.new.book ≡ self.old.book }
        ensures reruns { self.new.reruns ≡ self.old.reruns }
        ensures kept { OnErr result (self.new ≡ self.old) }
    {
        let entry = Entry {
            outcome,
            charge,
            bytes: section.len() as u64,
        };
        self.tally = self.tally.with(entry).ok_or(AllocError)?;
        Ok(())
    }
}

/// Runs a job without a flaw at a desk, which is made where there is none yet.
fn run_here(alloc: Global, desk: &mut Option<Desk>, job: &Arc<Job>) -> Result<Ended, AllocError>
    requires { job.now.value.flaw ≡ None }
    ensures { IfOk result (λ ended. ended.job ≡ job.now.value) }
{
    let mut own = match desk.take() {
        Some(desk) => desk,
        None => Desk::new(alloc)?,
    };
    let ran = run_job(alloc, &mut own, &mut Shelf::new(alloc), job);
    *desk = Some(own);
    ran
}

/// What became of a job that has ended so.
fn ended_so(ending: Ending) -> Outcome
    ensures { result ≡ ended_so ending }
{
    match ending {
        Ending::Normal => Outcome::Normal,
        Ending::Fault => Outcome::Fault,
        Ending::Limit => Outcome::Limit,
        Ending::Diagnosed => Outcome::Diagnosed,
    }
}

/// The result that was brought, where it is for an equal job.
#[tactic(auto, using(deck_reader::specs::JobEquality::equal_jobs_are_same))]
fn fitting(brought: Option<Brought>, job: &Job) -> Option<Ended>
    ensures equal { IfSome result (λ ended. ended.job ≡ job.now) }
    ensures fits { IsSome result ↔ Fits brought job.now }
{
    match brought {
        Some(Brought::Ended(ended)) if **ended.job() == *job => Some(ended),
        _ => None,
    }
}
