ghost use Rattle.std.specs.Prelude.{◌≡◌, ◌↔◌, ◌<◌, ◌≤◌, ◌+◌, ◌-◌, IfOk, OnErr, IsTrue, length, slice_index};
ghost use Rattle.batch_core.specs.declared.event.Event.TheVariants.{Arrive};
ghost use Rattle.batch_core.specs.declared.job.Stage.TheVariants.{Refused, Outstanding};
ghost use Rattle.batch_core.specs.Core.{start, job_at, stage_at, low, high};
ghost use Rattle.batch_core.specs.Events.{Allowed, AlwaysCovers, NeverCovers, MayArrive, MayAccept, MayRefuse, MayEnd, MayPrint, IsStep, add, decide, finish, print, step};

use crate::event::Event;
use crate::job::{Claim, JobState, Stage};
use std::alloc::{AllocError, Global};
use std::marker::Model;

/// The most jobs that may arrive.
const MOST_JOBS: usize = 4_294_967_295;

/// How far the jobs of a batch are, and what that leaves of each account.
#[derive(Drop)]
pub struct CoreState {
    openings: Vec<u64>,
    /// The least that each account can have left.
    lows: Vec<u64>,
    /// The most that it can.
    highs: Vec<u64>,
    /// The jobs in the order of arrival, of which the first are decided, and of those the first printed.
    jobs: Vec<JobState>,
    decided: usize,
    printed: usize,
}

impl Model for CoreState {
    ghost use Rattle.batch_core.specs.Core.{Core};
    ghost use Rattle.batch_core.specs.Sums.{Runs};

    ghost Value = { Core };

    ghost view = { λ s. record { openings = s.openings.items; jobs = s.jobs.items; decided = s.decided; printed = s.printed } };

    ghost invariant = { λ s. Runs (record { openings = s.openings.items; jobs = s.jobs.items; decided = s.decided; printed = s.printed }) s.lows.items s.highs.items };
}

impl CoreState {
    /// The state before any event, where these are the balances of the accounts.
    pub fn new(alloc: Global, openings: &[u64]) -> Result<CoreState, AllocError>
        ensures { IfOk result (λ core. core ≡ start openings.now) }
    {
        Ok(CoreState {
            openings: Vec::from_slice(alloc, openings)?,
            lows: Vec::from_slice(alloc, openings)?,
            highs: Vec::from_slice(alloc, openings)?,
            jobs: Vec::new(alloc),
            decided: 0,
            printed: 0,
        })
    }

    /// How many accounts there are.
    pub fn accounts(&self) -> usize
        ensures { result ≡ length self.now.openings }
    {
        self.openings.len()
    }

    /// How many jobs have arrived.
    pub fn arrived(&self) -> usize
        ensures { result ≡ length self.now.jobs }
    {
        self.jobs.len()
    }

    /// How many jobs are decided: so many of the first.
    pub fn decided(&self) -> usize
        ensures { result ≡ self.now.decided }
    {
        self.decided
    }

    /// How many jobs are printed: so many of the first.
    pub fn printed(&self) -> usize
        ensures { result ≡ self.now.printed }
    {
        self.printed
    }

    /// How far the job at a place is, where one is there. The place is how many jobs arrived before it.
    pub fn stage(&self, place: usize) -> Option<Stage>
        ensures { result ≡ stage_at self.now place }
    {
        self.jobs.get(place).map(|job| job.stage)
    }

    /// The least that the outstanding jobs can leave of an account: its opening less what its ended jobs were charged
    /// and its outstanding ones have reserved.
    pub fn low(&self, account: u32) -> u64
        ensures { result ≡ low self.now account }
    {
        self.lows.get(account as usize).copied().unwrap_or(0)
    }

    /// The most that they can leave: its opening less what its ended jobs were charged and the cards of its outstanding
    /// ones.
    pub fn high(&self, account: u32) -> u64
        ensures { result ≡ high self.now account }
    {
        self.highs.get(account as usize).copied().unwrap_or(0)
    }

    /// Whether an event may come next.
    pub fn allowed(&self, event: &Event) -> bool
        ensures { IsTrue result ↔ Allowed self.now event.now }
    {
        match *event {
            Event::Arrive(claim) => self.may_arrive(claim),
            Event::Accept(number) => number as usize == self.decided + 1 && self.may_accept(),
            Event::Refuse(number) => number as usize == self.decided + 1 && self.may_refuse(),
            Event::End(number, charge) => number > 0 && self.may_end(number as usize - 1, charge),
            Event::Print(number) => number as usize == self.printed + 1 && self.may_print(),
        }
    }

    fn may_arrive(&self, claim: Claim) -> bool
        ensures { IsTrue result ↔ MayArrive self.now claim }
    {
        let there = match claim.account {
            None => true,
            Some(account) => (account as usize) < self.openings.len(),
        };
        there && claim.cards <= claim.reserve && self.jobs.len() < MOST_JOBS
    }

    fn may_accept(&self) -> bool
        ensures { IsTrue result ↔ MayAccept self.now }
    {
        self.decided < self.jobs.len() && self.always_covers(self.jobs[self.decided].claim)
    }

    fn may_refuse(&self) -> bool
        ensures { IsTrue result ↔ MayRefuse self.now }
    {
        self.decided < self.jobs.len() && self.never_covers(self.jobs[self.decided].claim)
    }

    fn may_end(&self, place: usize, charge: u64) -> bool
        ensures { IsTrue result ↔ MayEnd self.now place charge }
    {
        place < self.jobs.len() && self.jobs[place].may_end(charge)
    }

    /// Whether the next unprinted job is over.
    pub fn may_print(&self) -> bool
        ensures { IsTrue result ↔ MayPrint self.now }
    {
        self.printed < self.jobs.len() && self.jobs[self.printed].is_over()
    }

    /// Whether a claim's account covers it whatever the outstanding jobs will cost.
    fn always_covers(&self, claim: Claim) -> bool
        ensures { IsTrue result ↔ AlwaysCovers self.now claim.account claim.reserve }
    {
        match claim.account {
            None => false,
            Some(account) => claim.reserve <= self.low(account),
        }
    }

    /// Whether it doesn't, whatever they will cost.
    fn never_covers(&self, claim: Claim) -> bool
        ensures { IsTrue result ↔ NeverCovers self.now claim.account claim.reserve }
    {
        match claim.account {
            None => true,
            Some(account) => claim.reserve > self.high(account),
        }
    }

    /// A job arrives. Where memory is wanting nothing changes.
    pub fn arrive(&mut self, claim: Claim) -> Result<(), AllocError>
        requires { Allowed self.old (Arrive claim) }
        ensures arrived { IfOk result (λ _. self.new ≡ step self.old (Arrive claim)) }
        ensures unchanged { OnErr result (self.new ≡ self.old) }
    {
        self.jobs.push(JobState {
            claim,
            stage: Stage::Undecided,
        })?;
        Ok(())
    }

    /// Any other event comes.
    pub fn step(&mut self, event: Event)
        requires allowed { Allowed self.old event }
        requires step { IsStep event }
        ensures { self.new ≡ step self.old event }
    {
        match event {
            Event::Arrive(_) => {}
            Event::Accept(_) => self.accept(),
            Event::Refuse(_) => self.refuse(),
            Event::End(number, charge) => self.end(number as usize - 1, charge),
            Event::Print(_) => self.print(),
        }
    }

    /// The next undecided job is accepted: its account can have its reserve less, and has its cards less.
    fn accept(&mut self)
        requires { MayAccept self.old }
        ensures { self.new ≡ decide self.old self.old.decided Outstanding }
    {
        let claim = self.jobs[self.decided].claim;
        self.jobs[self.decided] = JobState {
            claim,
            stage: Stage::Outstanding,
        };
        self.decided += 1;
        if let Some(account) = claim.account {
            self.lows[account as usize] -= claim.reserve;
            self.highs[account as usize] -= claim.cards;
        }
    }

    fn refuse(&mut self)
        requires { MayRefuse self.old }
        ensures { self.new ≡ decide self.old self.old.decided Refused }
    {
        let claim = self.jobs[self.decided].claim;
        self.jobs[self.decided] = JobState {
            claim,
            stage: Stage::Refused,
        };
        self.decided += 1;
    }

    /// An outstanding job ends: its account has its charge less, in place of its reserve and its cards.
    fn end(&mut self, place: usize, charge: u64)
        requires { MayEnd self.old place charge }
        ensures { self.new ≡ finish self.old place charge }
    {
        let claim = self.jobs[place].claim;
        self.jobs[place] = JobState {
            claim,
            stage: Stage::Ended(charge),
        };
        if let Some(account) = claim.account {
            self.highs[account as usize] -= charge - claim.cards;
            self.lows[account as usize] += claim.reserve - charge;
        }
    }

    fn print(&mut self)
        requires { MayPrint self.old }
        ensures { self.new ≡ print self.old }
    {
        self.printed += 1;
    }
}
