ghost use Rattle.std.specs.Prelude.{◌≡◌, ◌+◌, ◌<◌, All};
ghost use Rattle.crossbeam_queue.specs.Passes.{view};

use crate::rows::see;
use job_queue::{FreshQueue, JobQueue, PutPass, QueueBrand, TakePass, Ticket};
use std::marker::Brand;
use std::sync::Wait;
use std::test::Fail;
use std::thread;
use std::thread::Threads;

/// What came of four tickets of 100 each in a queue with room for three.
#[derive(Drop)]
struct Seen {
    /// Which of them found room.
    put: [bool; 4],
    /// The number of the first ticket taken.
    first: u32,
    /// Whether the last one found room after that.
    again: bool,
    /// What the pass of two threads that took the others owes, where 40 were settled.
    owed: u64,
    /// Whether nothing is left.
    none: bool,
}

/// Whether a ticket found room.
fn put<B: QueueBrand, R: Wait>(
    rt: &R,
    queue: &JobQueue<B>,
    pass: &mut PutPass<B>,
    number: u32,
) -> bool
    requires { All (λ t. t.number < number) (view pass.old.pass).put }
    ensures { All (λ t. t.number < number + 1) (view pass.new.pass).put }
{
    queue.put(rt, pass, Ticket::new(number, 100)).is_ok()
}

/// Takes until the queue is empty.
fn drain<B: QueueBrand, R: Wait>(rt: &R, queue: &JobQueue<B>, mut pass: TakePass<B>) -> TakePass<B>
    ensures { result.share.parts ≡ pass.share.parts }
{
    for _ in rt.forever() {
        if queue.take(rt, &mut pass).is_none() {
            break;
        }
    }
    pass
}

fn four_in_three<B: QueueBrand + Send + Sync, R: Threads + Wait + Sync>(
    rt: &R,
    fresh: FreshQueue,
) -> Seen
    requires name { fresh.blank.name ≡ B.name }
    requires parts { fresh.blank.parts ≡ B.parts }
    requires table { fresh.ring.table.shared.table_id ≡ B.table }
{
    let (queue, mut put_pass, mut pass, mut book) = fresh.open::<B>();
    let found_room = [
        put(rt, &queue, &mut put_pass, 1),
        put(rt, &queue, &mut put_pass, 2),
        put(rt, &queue, &mut put_pass, 3),
        put(rt, &queue, &mut put_pass, 4),
    ];
    let first = queue.take(rt, &mut pass).map_or(0, |t| t.number());
    if pass.owed() >= 40 {
        book.book(&mut pass, 40);
    }
    let again = put(rt, &queue, &mut put_pass, 5);
    let other = queue.split(&mut pass);
    let shared = &queue;
    let (mut pass, other) = thread::join(
        rt,
        || -> TakePass<B>
            requires { pass.share.parts ≡ 15 }
            ensures { result.share.parts ≡ 15 }
        { drain(rt, shared, pass) },
        || -> TakePass<B>
            requires { other.share.parts ≡ 1 }
            ensures { result.share.parts ≡ 1 }
        { drain(rt, shared, other) },
    );
    queue.join(&mut pass, other);
    queue.close(put_pass, &mut pass);
    book.agree(&mut pass);
    Seen {
        put: found_room,
        first,
        again,
        owed: pass.owed(),
        none: queue.take(rt, &mut pass).is_none(),
    }
}

#[test]
fn four_tickets(rt: HostRuntime) -> Result<(), Fail> {
    let fresh = FreshQueue::new(rt.alloc(), 3)?;
    let seen = four_in_three::<Brand, HostRuntime>(&rt, fresh);
    see(
        &rt,
        "three find room",
        seen.put == [true, true, true, false],
    );
    see(&rt, "the first is taken", seen.first == 1 && seen.again);
    see(
        &rt,
        "all is owed that wasn't settled",
        seen.owed == 360 && seen.none,
    );
    Ok(())
}
