//! What a thread carries to use the queue.
ghost use Rattle.std.specs.Prelude.{◌≡◌, ◌+◌, ◌<◌, []};
ghost use Rattle.crossbeam_queue.specs.Passes.{view};
ghost use Rattle.job_queue.specs.Rule.{amount_of};

use crate::brand::QueueBrand;
use crate::rule::PassView;
use crate::ticket::Ticket;
use crossbeam_queue::Pass;
use std::marker::PhantomData;
use std::sync::ledger::Share;

/// The right to put tickets into the queue. There is one.
#[derive(Drop)]
pub struct PutPass<B: QueueBrand> {
    pub(crate) pass: Pass<Ticket, PassView>,
    pub(crate) of: PhantomData<B>,
    pub ghost here: { pass.table_id ≡ B.table },
    pub ghost at_rest: { pass.me.1 ≡ [] },
    pub ghost right: { (view pass).rights ≡ 1 },
    pub ghost no_part: { (view pass).parts ≡ 0 },
    pub ghost none_taken: { (view pass).taken ≡ [] },
}

/// The right to take tickets from the queue, or so many of its sixteen parts; what was settled through the pass; and what
/// it owes, which is the amount of the tickets that it has taken and that aren't settled.
#[derive(Drop)]
pub struct TakePass<B: QueueBrand> {
    pub(crate) pass: Pass<Ticket, PassView>,
    pub(crate) share: Share<B>,
    pub(crate) owed: u64,
    pub ghost here: { pass.table_id ≡ B.table },
    pub ghost at_rest: { pass.me.1 ≡ [] },
    pub ghost some: { 0 < share.parts },
    pub ghost parts: { (view pass).parts ≡ share.parts },
    pub ghost no_list: { (view pass).rights ≡ 0 → (view pass).put ≡ [] },
    pub ghost adds_up: { amount_of (view pass).taken ≡ share.amount + owed },
}

impl<B: QueueBrand> TakePass<B> {
    /// What the pass owes.
    pub fn owed(&self) -> u64
        ensures { result ≡ self.now.owed }
    {
        self.owed
    }
}
