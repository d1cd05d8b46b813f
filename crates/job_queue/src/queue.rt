//! The queue.
ghost use Rattle.std.specs.Prelude.{◌≡◌, ◌+◌, ◌<◌, ◌≤◌, ◌^◌, All, IfErr, IfNone, IfSome, OnErr, OnOk};
ghost use Rattle.crossbeam_queue.specs.Passes.{view, ruled_capacity};
ghost use Rattle.crossbeam_queue.specs.Fifo.{Held};
ghost use Rattle.job_queue.specs.Rule.{amount_of, with_put, with_taken, found_full, found_empty, one_part, less_a_part, joined, IsEndOf, SameTickets};

use crate::brand::QueueBrand;
use crate::passes::{PutPass, TakePass};
use crate::rule::{
    Bounded, FoundEmpty, FoundFull, Joined, PartOff, PassView, Puts, QueueRule, Takes,
};
use crate::ticket::Ticket;
use crossbeam_queue::RuledArrayQueue;
use std::marker::PhantomData;
use std::sync::Wait;

pub(crate) type Ring = RuledArrayQueue<Ticket, PassView, QueueRule>;

/// A queue of tickets, which threads share.
#[derive(Drop)]
pub struct JobQueue<B: QueueBrand> {
    pub(crate) ring: Ring,
    pub(crate) of: PhantomData<B>,
    pub ghost here: { ring.table.shared.table_id ≡ B.table },
}

impl<B: QueueBrand> JobQueue<B> {
    /// Puts a ticket at the end. It comes back only where the queue was found full, which is counted: at one moment of this
    /// call the queue held as many tickets as it has room for, which were the last ones of those that were put.
    pub fn put<R: Wait>(&self, rt: &R, pass: &mut PutPass<B>, ticket: Ticket) -> Result<(), Ticket>
        requires rises { All (λ t. t.number < ticket.number) (view pass.old.pass).put }
        ensures put { OnOk result (view pass.new.pass ≡ with_put (view pass.new.pass).held (view pass.old.pass) ticket) }
        ensures amounts { OnOk result (amount_of (view pass.new.pass).put < 2 ^ 62) }
        ensures back { IfErr result (λ back. back ≡ ticket) }
        ensures counted { OnErr result (view pass.new.pass ≡ found_full (ruled_capacity self.now.ring) (view pass.old.pass)) }
        ensures full { OnErr result (Held (ruled_capacity self.now.ring) (IsEndOf (view pass.old.pass).put)) }
    {
        match self.ring.push_as::<Puts, R>(rt, &mut pass.pass, ticket) {
            Ok(()) => Ok(()),
            Err(back) => {
                let _receipt = self.ring.another::<FoundFull<B>>(&mut pass.pass);
                Err(back)
            }
        }
    }

    /// Takes the ticket in front, whose amount the pass owes from then on. There is none only where the queue was found
    /// empty, which is counted. A pass that has all parts, and the list of what was put from `close`, has then taken each
    /// ticket that was put.
    pub fn take<R: Wait>(&self, rt: &R, pass: &mut TakePass<B>) -> Option<Ticket>
        ensures share { pass.new.share ≡ pass.old.share }
        ensures taken { IfSome result (λ ticket. view pass.new.pass ≡ with_taken (view pass.new.pass).heard (view pass.old.pass) ticket) }
        ensures owed { IfSome result (λ ticket. pass.new.owed ≡ pass.old.owed + ticket.amount) }
        ensures counted { IfNone result (view pass.new.pass ≡ found_empty (view pass.old.pass)) }
        ensures owes { IfNone result (pass.new.owed ≡ pass.old.owed) }
        ensures whole { IfNone result ((view pass.old.pass).parts ≡ 16 → 0 < (view pass.old.pass).rights → SameTickets (view pass.old.pass).put (view pass.old.pass).taken) }
    {
        let TakePass {
            pass: ours,
            share: _,
            owed,
        } = pass;
        match self.ring.pop_as::<Takes, R>(rt, ours) {
            Some(ticket) => {
                *owed += ticket.amount();
                Some(ticket)
            }
            None => {
                let _receipt = self.ring.another::<FoundEmpty>(ours);
                None
            }
        }
    }

    /// Hands one part of the pass to a new one.
    pub fn split(&self, pass: &mut TakePass<B>) -> TakePass<B>
        requires { 2 ≤ pass.old.share.parts }
        ensures new { view result.pass ≡ one_part }
        ensures new_settled { result.share.amount ≡ 0 }
        ensures new_owed { result.owed ≡ 0 }
        ensures view { view pass.new.pass ≡ less_a_part (view pass.old.pass) }
        ensures parts { pass.new.share.parts + 1 ≡ pass.old.share.parts }
        ensures settled { pass.new.share.amount ≡ pass.old.share.amount }
        ensures owed { pass.new.owed ≡ pass.old.owed }
    {
        let TakePass {
            pass: ours,
            share,
            owed: _,
        } = pass;
        let theirs = self.ring.another::<PartOff>(ours);
        let part = share.split_off(1, 0);
        TakePass {
            pass: theirs,
            share: part,
            owed: 0,
        }
    }

    /// Takes in another pass: its tickets, findings, parts, settled amount and debt, and the list of what was put where it
    /// has it.
    pub fn join(&self, pass: &mut TakePass<B>, other: TakePass<B>)
        ensures view { view pass.new.pass ≡ joined (view pass.old.pass) (view other.pass) }
        ensures parts { pass.new.share.parts ≡ pass.old.share.parts + other.share.parts }
        ensures settled { pass.new.share.amount ≡ pass.old.share.amount + other.share.amount }
        ensures owed { pass.new.owed ≡ pass.old.owed + other.owed }
    {
        let TakePass {
            pass: ours,
            share,
            owed,
        } = pass;
        let TakePass {
            pass: theirs,
            share: part,
            owed: debt,
        } = other;
        self.ring.absorb::<Joined>(ours, theirs);
        self.ring.learn_as::<Bounded>(ours);
        share.merge(part);
        *owed += debt;
    }

    /// Ends the putting: the take pass has the list of all tickets that were put, and nothing is put any more.
    pub fn close(&self, put: PutPass<B>, pass: &mut TakePass<B>)
        ensures view { view pass.new.pass ≡ joined (view pass.old.pass) (view put.pass) }
        ensures put { (view pass.new.pass).put ≡ (view put.pass).put }
        ensures right { (view pass.new.pass).rights ≡ 1 }
        ensures share { pass.new.share ≡ pass.old.share }
        ensures owed { pass.new.owed ≡ pass.old.owed }
    {
        let PutPass {
            pass: theirs,
            of: _,
        } = put;
        self.ring.absorb::<Joined>(&mut pass.pass, theirs);
        self.ring.learn_as::<Bounded>(&mut pass.pass);
    }
}
