ghost use Rattle.std.specs.Prelude.{◌≡◌, ◌≤◌, ◌<◌, ◌+◌, ◌-◌, ◌↔◌, ◌⊎◌, [], false, true, Some, IfErr, IfNone, IfOk, IfSome, OnErr, OnOk, OnSome, IsOk, IsSome, IsTrue, slice_get};
ghost use Rattle.crossbeam_queue.specs.Passes.{view};
ghost use Rattle.crossbeam_utils.specs.Seq.{cell_view};
ghost use Rattle.job_queue.specs.Rule.{amount_of};
ghost use Rattle.batch_core.specs.Events.{MayAccept, MayPrint, MayRefuse};
ghost use Rattle.operator_board.specs.Tallies as counting;
ghost use Rattle.office.specs.Answers.{Answers, behind};
ghost use Rattle.office.specs.Arrivals.{Fits, IsBelow, IsMisfit};
ghost use Rattle.office.specs.OfficeView.{IsAllOver, new_office, next_ticket, with_accepted, with_closed, with_ended, with_full, with_register, with_stopped};
ghost use Rattle.office.specs.Register.{arrived, printed, refused};
ghost use Rattle.office.specs.Standings.{IfResult, IsRunning, standing_of, standing_told};
ghost use Rattle.office.specs.StandsFor.{StandsFor};
ghost use Rattle.office.specs.Tickets.{slip};

use crate::answers::{Admitted, ArriveError, Stranger};
use crate::board::{post_newest, read};
use crate::brand::OfficeBrand;
use crate::posting::Posting;
use crate::prospect::Prospect;
use crate::register::Register;
use crate::standing::Standing;
use account_book::Book;
use algolw_meaning::{Brought, Ended};
use batch_core::Event;
use deck_reader::Job;
use job_queue::{JobQueue, PutPass, SettleBook, TakePass, Ticket};
use operator_board::{Board, BoardWriter, Tallies};
use std::alloc::{AllocError, Global};
use std::marker::Model;
use std::sync::{Arc, Wait};

/// The office of a batch. Jobs arrive in it; it accepts or refuses them one by one, in their order, and puts the tickets
/// of those that it accepts into the queue; it takes the results of those that were run, and hands out what the sections
/// are made of, in order. At each moment it stands for the state of the batch that its journal replays. An office with a
/// board posts each event of its journal there, so that others can read how far it is without its lock.
#[derive(Drop)]
pub struct Office<B: OfficeBrand> {
    register: Register,
    put: PutPass<B>,
    settled: SettleBook<B>,
    posting: Option<Posting>,
    closed: bool,
    stopped: bool,
}

impl<B: OfficeBrand> Model for Office<B> {
    ghost use Rattle.crossbeam_queue.specs.Passes as passes;
    ghost use Rattle.office.specs.Kept.{Kept};
    ghost use Rattle.office.specs.OfficeView.{OfficeView};
    ghost use Rattle.office.specs.Shown.{Shows};
    ghost use Rattle.office.specs.Tickets.{slips};

    ghost Value = { OfficeView };

    ghost view = { λ o. record {
      register = o.register;
      put = slips (passes.view o.put.pass).put;
      full = (passes.view o.put.pass).full;
      settled = o.settled.book.total;
      closed = o.closed;
      stopped = o.stopped;
    } };

    ghost invariant = { λ o. Kept (record {
      register = o.register;
      put = slips (passes.view o.put.pass).put;
      full = (passes.view o.put.pass).full;
      settled = o.settled.book.total;
      closed = o.closed;
      stopped = o.stopped;
    }) (passes.view o.put.pass).put × Shows B.boarded o.register o.posting };
}

impl<B: OfficeBrand> Office<B> {
    /// The office of a batch before any event, without a board, where the balances of a book are what its accounts have.
    pub fn new(
        alloc: Global,
        book: Book,
        put: PutPass<B>,
        settled: SettleBook<B>,
    ) -> Result<Office<B>, AllocError>
        requires nothing_put { (view put.pass).put ≡ [] }
        requires nothing_settled { settled.book.total ≡ 0 }
        requires board { B.boarded ≡ false }
        ensures new { IfOk result (λ office. office ≡ new_office book.balances (view put.pass).full) }
    {
        let register = Register::new(alloc, book.balances())?;
        Ok(Office {
            register,
            put,
            settled,
            posting: None,
            closed: false,
            stopped: false,
        })
    }

    /// The office of a batch before any event, with a board on which nothing is posted, by the writer of that board.
    pub fn with_board(
        alloc: Global,
        book: Book,
        put: PutPass<B>,
        settled: SettleBook<B>,
        board: Arc<Board>,
        writer: BoardWriter,
    ) -> Result<Office<B>, AllocError>
        requires nothing_put { (view put.pass).put ≡ [] }
        requires nothing_settled { settled.book.total ≡ 0 }
        requires board { B.boarded ≡ true }
        requires writer { writer.pass.table_id ≡ board.value.cell.table.shared.table_id }
        requires nothing_posted { (cell_view writer.pass).events ≡ [] }
        requires openings { (cell_view writer.pass).openings ≡ book.balances }
        ensures new { IfOk result (λ office. office ≡ new_office book.balances (view put.pass).full) }
    {
        let register = Register::new(alloc, book.balances())?;
        Ok(Office {
            register,
            put,
            settled,
            posting: Some(Posting { board, writer }),
            closed: false,
            stopped: false,
        })
    }

    /// The events so far, in order. The office stands for the state that they lead to.
    pub fn journal(&self) -> &[Event]
        ensures events { result.now ≡ self.now.register.journal }
        ensures stands { StandsFor self.now }
    {
        self.register.journal()
    }

    /// How many events of each kind there were. No memory is taken.
    pub fn tallies(&self) -> Tallies
        ensures { result ≡ counting.tallies self.now.register.journal }
    {
        Tallies::of(self.register.journal())
    }

    /// The same, read off the office's board; none exactly where it has none. No memory is taken.
    pub fn board_read<R: Wait>(&mut self, rt: &R) -> Option<Tallies>
        ensures some { IsSome result ↔ IsTrue B.boarded }
        ensures tallies { IfSome result (λ t. t ≡ counting.tallies self.old.register.journal) }
        ensures adds_up { IfSome result (λ t. counting.AddsUp t) }
        ensures same { self.new ≡ self.old }
    {
        read(rt, &mut self.posting)
    }

    /// A job arrives. It must be the next one by its number, and on an account that is there if it is on one. Where memory
    /// is wanting nothing changes; where there was enough, there is for all that may come of the job.
    pub fn arrive<R: Wait>(&mut self, rt: &R, job: Arc<Job>) -> Result<(), ArriveError>
        ensures arrived { OnOk result (self.new
            ≡ with_register self.old (arrived self.old.register job.value)) }
        ensures fits { OnOk result (Fits self.old.register job.value) }
        ensures refused { IfErr result (λ error. IsMisfit self.old.register job.value error) }
        ensures unchanged { OnErr result (self.new ≡ self.old) }
    {
        let next = self.register.arrived() as u64 + 1;
        let accounts = self.register.accounts();
        if u64::from(job.number) != next || !is_there(job.account, accounts) {
            let accounts = u32::try_from(accounts).unwrap_or(u32::MAX);
            return Err(ArriveError::Misfit { next, accounts });
        }
        match self.register.arrive(job) {
            Ok(()) => {
                post_newest(rt, &mut self.posting, &self.register);
                Ok(())
            }
            Err(_) => Err(ArriveError::NoMemory),
        }
    }

    /// No more jobs are to arrive. It is no event.
    pub fn close_arrivals(&mut self)
        ensures { self.new ≡ with_closed self.old }
    {
        self.closed = true;
    }

    /// The office is to do no more. It is no event.
    pub fn stop(&mut self)
        ensures { self.new ≡ with_stopped self.old }
    {
        self.stopped = true;
    }

    /// Whether the office is stopped, or arrivals are closed and each job that has arrived is refused or has ended.
    pub fn is_over(&self) -> bool
        ensures { IsTrue result ↔ IsAllOver self.now }
    {
        self.stopped || (self.closed && self.register.is_over())
    }

    /// The reserves of the jobs that were accepted and haven't ended.
    pub fn reserved(&self) -> u64
        ensures { result ≡ self.now.register.reserved }
    {
        self.register.reserved()
    }

    /// What the office keeps for the number of a job.
    pub fn standing(&self, job: u32) -> Standing
        ensures { result ≡ standing_of self.now.register job }
    {
        self.register.standing(job)
    }

    /// The running job of a number, where there is one.
    pub fn running(&self, job: u32) -> Result<Option<Arc<Job>>, AllocError>
        ensures some { IfOk result (λ found. IsSome found ↔ (standing_of self.now.register job ≡ Standing.Running)) }
        ensures job { IfOk result (λ found. IfSome found (λ kept. slice_get self.now.register.jobs (job - 1) ≡ Some kept.value)) }
        ensures flaw { IfOk result (λ found. IfSome found (λ kept. kept.value.flaw ≡ None)) }
    {
        match self.register.running(job) {
            None => Ok(None),
            Some(kept) => {
                let kept = kept.clone()?;
                Ok(Some(kept))
            }
        }
    }

    /// One decision on the next undecided job: it is accepted, and its ticket put; or it is refused; or nothing changes,
    /// but that the put pass counts that it found the queue full.
    pub fn admit<R: Wait>(&mut self, rt: &R, queue: &JobQueue<B>) -> Admitted
        ensures answer { Answers self.old.register result }
        ensures behind { self.new ≡ behind self.old result }
    {
        match self.register.next() {
            None => Admitted::NoneArrived,
            Some((job, Prospect::Flawed(flaw))) => {
                self.refuse(rt);
                Admitted::Flawed { job, flaw }
            }
            Some((job, Prospect::Uncovered { reserve, high })) => {
                self.refuse(rt);
                Admitted::Refused { job, reserve, high }
            }
            Some((job, Prospect::Open { low, high })) => Admitted::Waits { job, low, high },
            Some((job, Prospect::Covered(reserve))) => {
                if self.accept(rt, queue, Ticket::new(job, reserve)) {
                    Admitted::Accepted { job }
                } else {
                    Admitted::Full { job }
                }
            }
        }
    }

    /// Puts the ticket of the next undecided job, which is then accepted, unless the queue is full.
    fn accept<R: Wait>(&mut self, rt: &R, queue: &JobQueue<B>, ticket: Ticket) -> bool
        requires may { MayAccept self.old.register.core }
        requires ticket { slip ticket.number ticket.amount ≡ next_ticket self.old.register }
        ensures accepted { IsTrue result → self.new ≡ with_accepted self.old }
        ensures full { result ≡ true ⊎ (self.new ≡ with_full self.old) }
    {
        let reserve = ticket.amount();
        match queue.put(rt, &mut self.put, ticket) {
            Ok(()) => {
                self.register.accept(reserve);
                post_newest(rt, &mut self.posting, &self.register);
                true
            }
            Err(_) => false,
        }
    }

    /// Refuses the next undecided job.
    fn refuse<R: Wait>(&mut self, rt: &R)
        requires { MayRefuse self.old.register.core }
        ensures { self.new ≡ with_register self.old (refused self.old.register) }
    {
        self.register.refuse();
        post_newest(rt, &mut self.posting, &self.register);
    }

    /// Takes the result of a running job, and settles the amount of its ticket. A result that isn't that of the running job
    /// of the ticket's number, with its amount as reserve, is handed back with the ticket, and nothing changes.
    pub fn settle<R: Wait>(
        &mut self,
        rt: &R,
        pass: &mut TakePass<B>,
        ticket: Ticket,
        ended: Ended,
    ) -> Result<(), Stranger>
        requires { ticket.amount ≤ pass.old.owed }
        ensures own { IsOk result ↔ IsRunning self.old.register ticket.number ticket.amount ended.job }
        ensures ended { OnOk result (self.new ≡ with_ended self.old ticket.number ticket.amount ended) }
        ensures owed { OnOk result (pass.new.owed + ticket.amount ≡ pass.old.owed) }
        ensures settled { OnOk result (pass.new.share.amount ≡ pass.old.share.amount + ticket.amount) }
        ensures parts { pass.new.share.parts ≡ pass.old.share.parts }
        ensures queue { pass.new.pass ≡ pass.old.pass }
        ensures kept { IfErr result (λ stranger. stranger.kept ≡ standing_of self.old.register ticket.number) }
        ensures ticket { IfErr result (λ stranger. stranger.ticket ≡ ticket) }
        ensures result { IfErr result (λ stranger. stranger.ended ≡ ended) }
        ensures unchanged { OnErr result (self.new ≡ self.old) }
        ensures pass { OnErr result (pass.new ≡ pass.old) }
    {
        let (number, amount) = (ticket.number(), ticket.amount());
        if !self.register.is_running(number, amount, ended.job()) {
            let kept = self.register.standing(number);
            return Err(Stranger {
                kept,
                ticket,
                ended,
            });
        }
        self.settled.book(pass, amount);
        self.register.end(number, amount, ended);
        post_newest(rt, &mut self.posting, &self.register);
        Ok(())
    }

    /// What the section of the next unprinted job is made of, once that is refused or has ended; it is then printed. It is
    /// a result exactly where the job has ended, and the result is that of this job.
    pub fn next_section<R: Wait>(&mut self, rt: &R) -> Option<Brought>
        ensures may { IsSome result ↔ MayPrint self.old.register.core }
        ensures standing { IfSome result (λ brought. standing_of self.old.register (self.old.register.core.printed + 1) ≡ standing_told brought) }
        ensures result { IfSome result (λ brought. IfResult brought (λ ended. slice_get self.old.register.jobs self.old.register.core.printed ≡ Some ended.job)) }
        ensures printed { OnSome result (self.new ≡ with_register self.old (printed self.old.register)) }
        ensures unchanged { IfNone result (self.new ≡ self.old) }
    {
        let brought = self.register.print()?;
        post_newest(rt, &mut self.posting, &self.register);
        Some(brought)
    }

    /// Ends the office: the put pass is closed into a pass that has all parts. What was put is what is reserved and what
    /// was settled through that pass.
    pub fn seal(self, queue: &JobQueue<B>, pass: &mut TakePass<B>) -> u64
        requires { pass.old.share.parts ≡ B.parts }
        ensures reserved { result ≡ self.register.reserved }
        ensures put { amount_of (view pass.new.pass).put ≡ result + pass.new.share.amount }
        ensures right { (view pass.new.pass).rights ≡ 1 }
        ensures taken { (view pass.new.pass).taken ≡ (view pass.old.pass).taken }
        ensures empty { (view pass.old.pass).empty ≤ (view pass.new.pass).empty }
        ensures parts { pass.new.share.parts ≡ pass.old.share.parts }
        ensures settled { pass.new.share.amount ≡ pass.old.share.amount }
        ensures owed { pass.new.owed ≡ pass.old.owed }
    {
        let Office {
            register,
            put,
            mut settled,
            posting: _,
            closed: _,
            stopped: _,
        } = self;
        settled.agree(pass);
        queue.close(put, pass);
        register.reserved()
    }
}

/// Whether an account, if there is one, is among so many.
fn is_there(account: Option<u32>, accounts: usize) -> bool
    ensures { IsTrue result ↔ IsBelow accounts account }
{
    match account {
        None => true,
        Some(account) => (account as usize) < accounts,
    }
}
