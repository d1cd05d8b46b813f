ghost use Rattle.std.specs.Prelude.{◌≡◌, ◌+◌, ◌++◌, ◌∷◌, [], List, ℕ, IfOk, OnOk, OnErr, length, map, slice_index};
ghost use Rattle.deck_reader.specs.declared.batch.Batch.{Batch};
ghost use Rattle.deck_reader.specs.JobView.{JobView};
ghost use Rattle.account_book.specs.BookView.{openings_of};
ghost use Rattle.account_book.specs.OwnJobs.{as_own, own_jobs};
ghost use Rattle.algolw_meaning.specs.Charging.{decision_at, decisions};
ghost use Rattle.account_statements.specs.Statement.{no_account, statement, statement_in};
ghost use Rattle.account_statements.specs.Standing.{IsStatement, left_by, with_job, with_own};

use crate::lines::{push_balance, push_decision, push_no_account, push_opening};
use account_book::{Book, Decision, charge_of};
use deck_reader::{Account, Job, Name};
use std::alloc::{AllocError, Global};
use std::marker::Model;
use std::sync::Arc;

/// The statement of an account, to which its jobs are added one after the other.
#[derive(Drop)]
pub struct Statement {
    alloc: Global,
    text: Vec<u8>,
    /// How many jobs are in it.
    count: u64,
    /// What they left.
    balance: u64,
}

impl Model for Statement {
    ghost use Rattle.account_statements.specs.Standing.{StatementView};

    ghost Value = { StatementView };

    ghost view = { λ s. record { text = s.text.items; count = s.count; balance = s.balance } };
}

impl Statement {
    /// The statement of an account with this name and opening balance, without a job.
    pub fn start(alloc: Global, name: &Name, opening: u64) -> Result<Statement, AllocError>
        ensures { IfOk result (λ s. IsStatement s name.now opening []) }
    {
        let mut text = Vec::new(alloc);
        push_opening(&mut text, name.as_slice(), opening)?;
        Ok(Statement {
            alloc,
            text,
            count: 0,
            balance: opening,
        })
    }

    /// Adds a job of the account, of which this became behind the jobs that were added before. Where memory is wanting, the
    /// statement stays as it was.
    pub fn add(&mut self, job: &Job, decision: &Decision) -> Result<(), AllocError>
        ensures added { (name : List ℕ) (opening : ℕ) (jobs : List JobView) → IsStatement self.old name opening jobs
            → decision.now ≡ decision_at (opening ∷ []) jobs (as_own (length jobs + 1) job.now)
            → OnOk result (IsStatement self.new name opening (jobs ++ as_own (length jobs + 1) job.now ∷ [])) }
        ensures kept { OnErr result (self.new ≡ self.old) }
    {
        self.put(job, decision)
    }

    /// Adds the line of a job, and lowers the balance by its charge.
    fn put(&mut self, job: &Job, decision: &Decision) -> Result<(), AllocError>
        ensures one { OnOk result (self.new ≡ with_job self.old job.now decision.now) }
        ensures kept { OnErr result (self.new ≡ self.old) }
    {
        let number = self.count.checked_add(1).ok_or(AllocError)?;
        let mut line = Vec::new(self.alloc);
        push_decision(
            &mut line,
            number,
            job.name.as_slice(),
            self.balance,
            decision,
        )?;
        self.text.extend_from_slice(line.as_slice())?;
        self.count = number;
        self.balance = left_by(self.balance, decision);
        Ok(())
    }

    /// Adds those of these jobs that are the account's, each with what became of it.
    fn add_own(
        &mut self,
        account: u32,
        jobs: &[Arc<Job>],
        became: &[Decision],
    ) -> Result<(), AllocError>
        ensures { OnOk result (self.new ≡ with_own account self.old (map (λ j. j.value) jobs.now) became.now) }
    {
        for (job, decision) in jobs.iter().zip(became) {
            if job.account == Some(account) {
                self.put(job, decision)?;
            }
        }
        Ok(())
    }

    /// The whole statement.
    pub fn finish(self) -> Result<Vec<u8>, AllocError>
        ensures { (name : List ℕ) (opening : ℕ) (jobs : List JobView) → IsStatement self name opening jobs
            → IfOk result (λ v. v.items ≡ statement name opening jobs) }
    {
        let mut text = self.text;
        push_balance(&mut text, self.balance)?;
        Ok(text)
    }
}

/// What a decision leaves of a balance.
fn left_by(balance: u64, decision: &Decision) -> u64
    ensures { result ≡ left_by balance decision.now }
{
    match decision {
        Decision::Flawed(_) | Decision::Refused { .. } => balance,
        Decision::Charged(counts) => balance.saturating_sub(charge_of(*counts)),
    }
}

/// The statement of the account with this name in a batch, or the text that says that there is none. The batch has the book's
/// accounts and these jobs, and this became of each job at its place.
pub fn statement_of(
    alloc: Global,
    name: &Name,
    book: &Book,
    jobs: &[Arc<Job>],
    became: &[Decision],
) -> Result<Vec<u8>, AllocError>
    ensures { (b : Batch) → b.accounts ≡ book.now.accounts → b.jobs ≡ map (λ j. j.value) jobs.now
        → became.now ≡ decisions (openings_of b.accounts) b.jobs
        → IfOk result (λ v. v.items ≡ statement_in name.now b) }
{
    match book.find(name) {
        Some(account) => own_statement(
            alloc,
            name,
            account,
            opening_of(book.accounts(), account),
            jobs,
            became,
        ),
        None => no_account(alloc, name),
    }
}

/// The statement of the account that has this number in a batch, and this name and opening balance.
fn own_statement(
    alloc: Global,
    name: &Name,
    account: u32,
    opening: u64,
    jobs: &[Arc<Job>],
    became: &[Decision],
) -> Result<Vec<u8>, AllocError>
    ensures { (openings : List ℕ) → opening ≡ slice_index openings account
        → became.now ≡ decisions openings (map (λ j. j.value) jobs.now)
        → IfOk result (λ v. v.items ≡ statement name.now opening (own_jobs account (map (λ j. j.value) jobs.now))) }
{
    let mut statement = Statement::start(alloc, name, opening)?;
    statement.add_own(account, jobs, became)?;
    statement.finish()
}

/// The opening balance of the account with this number, which is 0 where there is no such account.
fn opening_of(accounts: &[Account], account: u32) -> u64
    ensures { result ≡ slice_index (openings_of accounts.now) account }
{
    match accounts.get(account as usize) {
        Some(account) => account.opening,
        None => 0,
    }
}

/// The text where no account has this name.
pub fn no_account(alloc: Global, name: &Name) -> Result<Vec<u8>, AllocError>
    ensures { IfOk result (λ v. v.items ≡ no_account name.now) }
{
    let mut text = Vec::new(alloc);
    push_no_account(&mut text, name.as_slice())?;
    Ok(text)
}
