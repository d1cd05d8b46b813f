ghost use Rattle.std.specs.Option.{option_copied};
ghost use Rattle.std.specs.Prelude.{◌≡◌, ◌-◌, ◌≤◌, ◌<◌, ◌+◌, ◌*◌, ◌^◌, ◌↔◌, Some, None, IfNone, IfOk, IfSome, OnErr, OnOk, OnSome, IsSome, IsTrue, length, slice_get, slice_index_or, slice_set, vec_capacity, vec_len};
ghost use Rattle.deck_reader.specs.JobView.{JobView};
ghost use Rattle.algolw_meaning.specs.Running.{job_result};
ghost use Rattle.batch_core.specs.Core.{start};
ghost use Rattle.batch_core.specs.Events.{IsThere, Legal, MayAccept, MayPrint, MayRefuse};
ghost use Rattle.batch_core.specs.Kept.{AllOver};
ghost use Rattle.batch_core.specs.Claims.{claim_of_job};
ghost use Rattle.office.specs.Prospects.{IsNext, Sees};
ghost use Rattle.office.specs.Register.{accepted, arrived, blank, finished, next_reserve, printed, refused};
ghost use Rattle.office.specs.Standings.{IfResult, IsRunning, brought_by, standing_of, standing_told};

use crate::prospect::Prospect;
use crate::standing::Standing;
use account_book::{charge_of, reserve_of};
use algolw_meaning::{Brought, Ended};
use batch_core::{Claim, CoreState, Event};
use deck_reader::Job;
use std::alloc::{AllocError, Global};
use std::marker::Model;
use std::sync::Arc;

/// The jobs that have arrived, what is decided of each, and the results of those that have ended, with the journal of all
/// events.
#[derive(Drop)]
pub(crate) struct Register {
    core: CoreState,
    /// The events, with room for all that are still to come.
    journal: Vec<Event>,
    jobs: Vec<Arc<Job>>,
    /// The result of each job, from its end until it is printed.
    results: Vec<Option<Ended>>,
    /// The reserves of the outstanding jobs.
    reserved: u64,
    /// How many jobs are outstanding.
    outstanding: usize,
}

impl Model for Register {
    ghost use Rattle.std.specs.Prelude.{map, vec_capacity};
    ghost use Rattle.office.specs.Register.{RegisterView};
    ghost use Rattle.office.specs.Registered.{Registered};

    ghost Value = { RegisterView };

    ghost view = { λ r. record {
      core = r.core;
      journal = r.journal.items;
      jobs = map (λ j. j.value) r.jobs.items;
      results = r.results.items;
      reserved = r.reserved;
    } };

    ghost invariant = { λ r. Registered (record {
      core = r.core;
      journal = r.journal.items;
      jobs = map (λ j. j.value) r.jobs.items;
      results = r.results.items;
      reserved = r.reserved;
    }) (vec_capacity r.journal) r.outstanding };
}

/// What a job asks: it is on no account where it has a flaw.
fn claim_of(job: &Job) -> Claim
    ensures { result ≡ claim_of_job job.now }
{
    let account = match job.flaw {
        None => job.account,
        Some(_) => None,
    };
    Claim {
        account,
        reserve: reserve_of(job),
        cards: u64::from(job.cards),
    }
}

/// Makes room for one more job and its result, and for all its events beside those of the others.
fn make_room(
    journal: &mut Vec<Event>,
    jobs: &mut Vec<Arc<Job>>,
    results: &mut Vec<Option<Ended>>,
) -> Result<(), AllocError>
    requires few { length jobs.old.items ≤ 4294967295 }
    ensures journal { journal.new.items ≡ journal.old.items }
    ensures jobs { jobs.new.items ≡ jobs.old.items }
    ensures results { results.new.items ≡ results.old.items }
    ensures kept { vec_capacity journal.old ≤ vec_capacity journal.new }
    ensures events { OnOk result (4 * (length jobs.old.items + 1) ≤ vec_capacity journal.new) }
    ensures job { OnOk result (vec_len jobs.new < vec_capacity jobs.new) }
    ensures result { OnOk result (vec_len results.new < vec_capacity results.new) }
{
    let events = 4 * (jobs.len() + 1);
    journal.reserve(events.saturating_sub(journal.len()))?;
    jobs.reserve(1)?;
    results.reserve(1)
}

/// Takes a result out of its place.
fn hand_out(results: &mut Vec<Option<Ended>>, place: usize) -> Option<Ended>
    ensures result { result ≡ slice_index_or results.old.items place None }
    ensures rest { results.new.items ≡ slice_set results.old.items place None }
{
    match results.get_mut(place) {
        Some(result) => result.take(),
        None => None,
    }
}

/// What the section of a job that is over is made of, where this is its result.
fn brought_of(kept: Option<Ended>) -> Brought
    ensures { result ≡ brought_by kept }
{
    match kept {
        Some(ended) => Brought::Ended(ended),
        None => Brought::Refused,
    }
}

impl Register {
    /// The register of a batch before any event, where these are the balances of its accounts.
    pub(crate) fn new(alloc: Global, balances: &[u64]) -> Result<Register, AllocError>
        ensures blank { IfOk result (λ register. register ≡ blank balances.now) }
    {
        Ok(Register {
            core: CoreState::new(alloc, balances)?,
            journal: Vec::new(alloc),
            jobs: Vec::new(alloc),
            results: Vec::new(alloc),
            reserved: 0,
            outstanding: 0,
        })
    }

    /// How many accounts there are.
    pub(crate) fn accounts(&self) -> usize
        ensures { result ≡ length self.now.core.openings }
    {
        self.core.accounts()
    }

    /// How many jobs have arrived.
    pub(crate) fn arrived(&self) -> usize
        ensures value { result ≡ length self.now.jobs }
        ensures few { result ≤ 4294967295 }
    {
        self.jobs.len()
    }

    /// The events so far.
    pub(crate) fn journal(&self) -> &[Event]
        ensures { result.now ≡ self.now.journal }
    {
        self.journal.as_slice()
    }

    /// The newest event, where there is one. The events are legal from the openings on.
    pub(crate) fn newest(&self) -> Option<&Event>
        ensures newest { option_copied result ≡ slice_get self.now.journal (length self.now.journal - 1) }
        ensures legal { Legal (start self.now.core.openings) self.now.journal }
    {
        self.journal.last()
    }

    /// What is reserved for the outstanding jobs.
    pub(crate) fn reserved(&self) -> u64
        ensures { result ≡ self.now.reserved }
    {
        self.reserved
    }

    /// Whether each job that has arrived is refused or has ended.
    pub(crate) fn is_over(&self) -> bool
        ensures { IsTrue result ↔ AllOver self.now.core }
    {
        self.outstanding == 0 && self.core.decided() == self.jobs.len()
    }

    /// A job arrives, with the next number. Where memory is wanting nothing changes.
    pub(crate) fn arrive(&mut self, job: Arc<Job>) -> Result<(), AllocError>
        requires few { length self.old.jobs < 4294967295 }
        requires number { job.value.number ≡ length self.old.jobs + 1 }
        requires account { IsThere self.old.core.openings job.value.account }
        ensures arrived { OnOk result (self.new ≡ arrived self.old job.value) }
        ensures unchanged { OnErr result (self.new ≡ self.old) }
    {
        let claim = claim_of(&job);
        make_room(&mut self.journal, &mut self.jobs, &mut self.results)?;
        self.core.arrive(claim)?;
        self.journal.push_reserved(Event::Arrive(claim));
        self.jobs.push_reserved(job);
        self.results.push_reserved(None);
        Ok(())
    }

    /// The number of the next undecided job, and what can be decided of it.
    pub(crate) fn next(&self) -> Option<(u32, Prospect)>
        ensures none { IfNone result (length self.now.jobs ≤ self.now.core.decided) }
        ensures sees { IfSome result (λ next. (job : JobView) × IsNext self.now next.0 job × Sees self.now.core job next.1) }
    {
        let place = self.core.decided();
        let job = self.jobs.get(place)?;
        Some((place as u32 + 1, Prospect::of(&self.core, job)))
    }

    /// The next undecided job is accepted, at its reserve.
    pub(crate) fn accept(&mut self, reserve: u64)
        requires may { MayAccept self.old.core }
        requires reserve { reserve ≡ next_reserve self.old }
        requires fits { self.old.reserved + reserve < 2 ^ 64 }
        ensures { self.new ≡ accepted self.old }
    {
        let event = Event::Accept(self.core.decided() as u32 + 1);
        self.core.step(event);
        self.journal.push_reserved(event);
        self.reserved += reserve;
        self.outstanding += 1;
    }

    /// The next undecided job is refused.
    pub(crate) fn refuse(&mut self)
        requires { MayRefuse self.old.core }
        ensures { self.new ≡ refused self.old }
    {
        let event = Event::Refuse(self.core.decided() as u32 + 1);
        self.core.step(event);
        self.journal.push_reserved(event);
    }

    /// What is kept for the number of a job.
    pub(crate) fn standing(&self, number: u32) -> Standing
        ensures { result ≡ standing_of self.now number }
    {
        match number.checked_sub(1) {
            None => Standing::NotArrived,
            Some(place) => Standing::of(self.core.stage(place as usize)),
        }
    }

    /// The running job of a number.
    pub(crate) fn running(&self, number: u32) -> Option<&Arc<Job>>
        ensures some { IsSome result ↔ (standing_of self.now number ≡ Standing.Running) }
        ensures job { IfSome result (λ job. slice_get self.now.jobs (number - 1) ≡ Some job.now.value) }
    {
        if self.standing(number) != Standing::Running {
            return None;
        }
        self.jobs.get(number as usize - 1)
    }

    /// Whether a job is the running one of this number, at this reserve.
    pub(crate) fn is_running(&self, number: u32, amount: u64, job: &Job) -> bool
        ensures { IsTrue result ↔ IsRunning self.now number amount job.now }
    {
        match self.running(number) {
            None => false,
            Some(kept) => **kept == *job && reserve_of(kept) == amount,
        }
    }

    /// A running job ends.
    pub(crate) fn end(&mut self, number: u32, amount: u64, ended: Ended)
        requires { IsRunning self.old number amount ended.job }
        ensures ended { self.new ≡ finished self.old number ended }
        ensures means { ended.counts ≡ (job_result ended.job).counts }
    {
        let event = Event::End(number, charge_of(ended.counts()));
        self.core.step(event);
        self.journal.push_reserved(event);
        self.results[number as usize - 1] = Some(ended);
        self.reserved -= amount;
        self.outstanding -= 1;
    }

    /// Prints the next unprinted job, if it is over, and gives what its section is made of.
    pub(crate) fn print(&mut self) -> Option<Brought>
        ensures may { IsSome result ↔ MayPrint self.old.core }
        ensures unchanged { IfNone result (self.new ≡ self.old) }
        ensures printed { OnSome result (self.new ≡ printed self.old) }
        ensures standing { IfSome result (λ brought. standing_of self.old (self.old.core.printed + 1) ≡ standing_told brought) }
        ensures result { IfSome result (λ brought. IfResult brought (λ ended. slice_get self.old.jobs self.old.core.printed ≡ Some ended.job)) }
    {
        if !self.core.may_print() {
            return None;
        }
        let place = self.core.printed();
        let event = Event::Print(place as u32 + 1);
        self.core.step(event);
        self.journal.push_reserved(event);
        Some(brought_of(hand_out(&mut self.results, place)))
    }
}
