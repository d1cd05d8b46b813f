//! What was reserved, once the workers have returned.
ghost use Rattle.std.specs.Prelude.{◌≡◌, ◌+◌, ◌<◌, ◌≤◌};
ghost use Rattle.crossbeam_queue.specs.Passes.{view};
ghost use Rattle.job_queue.specs.Rule.{amount_of};
ghost use Rattle.worker_pool.specs.Ends.{debts_of};

use crate::staff::Pooled;
use job_queue::{JobQueue, QueueBrand, TakePass};
use office::OfficeBrand;
use std::sync::Wait;

/// What all accepted jobs that haven't ended had reserved, and where it is.
#[derive(Drop)]
pub struct Gathered<B: QueueBrand> {
    /// What the office had reserved.
    pub reserved: u64,
    /// The amounts of the tickets that the workers brought back.
    pub returned: u64,
    /// The amounts of the tickets that were left in the queue.
    pub left: u64,
    /// The pass, which owes both.
    pub pass: TakePass<B>,
}

/// Seals the office and takes what is left in the queue, until it is found empty. What was reserved is what the workers
/// brought back and what was left.
pub fn gather<B: OfficeBrand, R: Wait>(rt: &R, pooled: Pooled<B>) -> Gathered<B>
    requires { B.parts ≡ 16 }
    ensures adds_up { result.reserved ≡ result.returned + result.left }
    ensures reserved { result.reserved ≡ pooled.office.register.reserved }
    ensures returned { result.returned ≡ pooled.pass.owed }
    ensures brought { result.returned ≡ debts_of pooled.brought }
    ensures left { result.pass.owed ≡ pooled.pass.owed + result.left }
    ensures emptied { (view pooled.pass.pass).empty < (view result.pass.pass).empty }
{
    let Pooled {
        office,
        queue,
        mut pass,
        brought: _,
    } = pooled;
    let returned = pass.owed();
    let reserved = office.seal(&queue, &mut pass);
    take_all(rt, &queue, &mut pass);
    let left = pass.owed() - returned;
    Gathered {
        reserved,
        returned,
        left,
        pass,
    }
}

/// Takes until the queue is found empty. With all parts and the list of what was put, the pass has then taken all of it.
fn take_all<B: QueueBrand, R: Wait>(rt: &R, queue: &JobQueue<B>, pass: &mut TakePass<B>)
    requires whole { pass.old.share.parts ≡ 16 }
    requires closed { (view pass.old.pass).rights ≡ 1 }
    ensures all { amount_of (view pass.old.pass).put ≡ pass.old.share.amount + pass.new.owed }
    ensures more { pass.old.owed ≤ pass.new.owed }
    ensures emptied { (view pass.old.pass).empty < (view pass.new.pass).empty }
{
    for _ in rt.forever() {
        if queue.take(rt, pass).is_none() {
            return;
        }
    }
}
