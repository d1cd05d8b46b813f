//! How a queue is made.
ghost use Rattle.std.specs.Prelude.{◌≡◌, ◌≤◌, IfOk};
ghost use Rattle.crossbeam_queue.specs.Passes.{view, IsPassOf, ruled_capacity};
ghost use Rattle.job_queue.specs.Rule.{first, put_side, take_side};

use crate::book::SettleBook;
use crate::brand::QueueBrand;
use crate::passes::{PutPass, TakePass};
use crate::queue::{JobQueue, Ring};
use crate::rule::{Apart, PassView};
use crate::ticket::Ticket;
use crossbeam_queue::Pass;
use std::alloc::{AllocError, Global};
use std::marker::PhantomData;
use std::sync::ledger::Blank;

/// A queue that nobody has used, its first pass, and a ledger of sixteen parts, of which no brand speaks yet.
#[derive(Drop)]
pub struct FreshQueue {
    ring: Ring,
    pass: Pass<Ticket, PassView>,
    blank: Blank,
    pub ghost here: { IsPassOf ring pass },
    pub ghost begins: { view pass ≡ first },
    pub ghost sixteen: { blank.parts ≡ 16 },
}

impl FreshQueue {
    /// A queue with room for so many tickets.
    pub fn new(alloc: Global, capacity: u32) -> Result<FreshQueue, AllocError>
        requires { (1 ≤ capacity) × (capacity ≤ 64) }
        ensures { IfOk result (λ fresh. ruled_capacity fresh.ring ≡ capacity) }
    {
        let (ring, pass) = Ring::ruled(alloc, capacity as usize)?;
        let blank = Blank::new(16);
        Ok(FreshQueue { ring, pass, blank })
    }

    /// Opens the queue under its brand. Nothing was put, taken or settled, and nothing is owed.
    pub fn open<B: QueueBrand>(self) -> (JobQueue<B>, PutPass<B>, TakePass<B>, SettleBook<B>)
        requires name { self.blank.name ≡ B.name }
        requires parts { self.blank.parts ≡ B.parts }
        requires table { self.ring.table.shared.table_id ≡ B.table }
        ensures capacity { ruled_capacity result.0.ring ≡ ruled_capacity self.ring }
        ensures put { view result.1.pass ≡ put_side first }
        ensures take { view result.2.pass ≡ take_side first }
        ensures parts { result.2.share.parts ≡ 16 }
        ensures settled { result.2.share.amount ≡ 0 }
        ensures owed { result.2.owed ≡ 0 }
        ensures total { result.3.book.total ≡ 0 }
    {
        let FreshQueue {
            ring,
            mut pass,
            blank,
        } = self;
        let rest = ring.another::<Apart>(&mut pass);
        let (book, share) = blank.open::<B>();
        let queue = JobQueue {
            ring,
            of: PhantomData,
        };
        let put = PutPass {
            pass,
            of: PhantomData,
        };
        let take = TakePass {
            pass: rest,
            share,
            owed: 0,
        };
        (queue, put, take, SettleBook { book })
    }
}
