//! How the workers are started and joined.
ghost use Rattle.std.specs.Prelude.{◌≡◌, ◌+◌, ◌<◌, ◌≤◌, length};
ghost use Rattle.worker_pool.specs.Ends.{debt_of, AreOverFrom};

use crate::caller::{Caller, take_turns};
use crate::end::WorkEnd;
use crate::staff::{Pooled, Staff, Worked};
use crate::working::work;
use batch_io::Gate;
use core::thread::{Anything, Stack};
use crossbeam_utils::CachePadded;
use job_queue::{JobQueue, TakePass};
use job_runner::Desk;
use office::{Office, OfficeBrand};
use std::alloc::Global;
use std::sync::{Mutex, Wait};
use std::thread;
use std::thread::{Scope, Threads};

/// The stack of a worker's thread, which suffices for a deck that nests as deep as may be.
const STACK: usize = 16 << 20;

/// Runs a worker at each desk, which shares no line of the processors' caches with another: those at all but the last in threads of their own, and the last when the caller, which takes
/// its turns until it is done, has become one. It returns when all have, with the office, what they brought back, and the
/// caller.
pub fn run_pool<B, R, G, C>(
    rt: &R,
    alloc: Global,
    office: Office<B>,
    queue: JobQueue<B>,
    pass: TakePass<B>,
    desks: &mut [CachePadded<Desk>],
    gate: &G,
    caller: C,
) -> (Pooled<B>, C)
where
    B: OfficeBrand + Send + Sync,
    R: Threads + Wait + Sync,
    G: Gate,
    C: Caller<B> + Drop,
    requires some { 1 ≤ length desks.old }
    requires few { length desks.old ≤ 16 }
    requires whole { pass.share.parts ≡ 16 }
    requires owed { pass.owed ≡ 0 }
    ensures went { C.went caller result.1 }
    ensures finished { C.finished result.1 }
    ensures others { AreOverFrom (length desks.old) result.0.brought }
{
    let office = Mutex::new(office);
    let hall = Hall {
        rt,
        alloc,
        office: &office,
        queue: &queue,
        gate,
    };
    let staff = staffed(&hall, desks, pass, caller);
    let Staff {
        pass,
        caller,
        brought,
    } = staff;
    let pooled = Pooled {
        office: office.into_inner(),
        queue,
        pass,
        brought,
    };
    (pooled, caller)
}

/// What the workers share.
#[derive(Drop)]
struct Hall<'e, B: OfficeBrand, R, G> {
    rt: &'e R,
    alloc: Global,
    office: &'e Mutex<Office<B>>,
    queue: &'e JobQueue<B>,
    gate: &'e G,
}

impl<'e, B: OfficeBrand, R: Wait, G: Gate> Hall<'e, B, R, G> {
    /// Works until the office is over.
    fn work(&self, pass: &mut TakePass<B>, desk: &mut Desk) -> WorkEnd
        requires { pass.old.owed ≡ 0 }
        ensures owed { pass.new.owed ≡ debt_of result }
        ensures parts { pass.new.share.parts ≡ pass.old.share.parts }
    {
        work(
            self.rt,
            self.alloc,
            self.office,
            self.queue,
            pass,
            desk,
            self.gate,
        )
    }
}

/// What all workers and the caller bring back.
fn staffed<B, R, G, C>(
    hall: &Hall<'_, B, R, G>,
    desks: &mut [CachePadded<Desk>],
    pass: TakePass<B>,
    caller: C,
) -> Staff<B, C>
where
    B: OfficeBrand + Send + Sync,
    R: Threads + Wait + Sync,
    G: Gate,
    C: Caller<B> + Drop,
    requires some { 1 ≤ length desks.old }
    requires few { length desks.old ≤ 16 }
    requires whole { pass.share.parts ≡ 16 }
    requires owed { pass.owed ≡ 0 }
    ensures whole { result.pass.share.parts ≡ 16 }
    ensures went { C.went caller result.caller }
    ensures finished { C.finished result.caller }
    ensures others { AreOverFrom (length desks.old) result.brought }
{
    let Some((desk, others)) = desks.split_first_mut() else {
        unreachable!()
    };
    thread::scope(
        thread::scope_env(),
        hall.rt,
        |scope| -> Staff<B, C>
            requires { (length others.now < 16) × (pass.share.parts ≡ 16) × (pass.owed ≡ 0) }
            ensures whole { result.pass.share.parts ≡ 16 }
            ensures went { C.went caller result.caller }
            ensures finished { C.finished result.caller }
            ensures over { AreOverFrom (length others.entry.now + 1) result.brought }
        { hire(scope, hall, desk, others, pass, caller) },
    )
}

/// A thread's work.
fn worked<B: OfficeBrand, R: Wait, G: Gate>(
    hall: &Hall<'_, B, R, G>,
    mut pass: TakePass<B>,
    desk: &mut CachePadded<Desk>,
) -> Worked<B>
    requires part { pass.share.parts ≡ 1 }
    requires owed { pass.owed ≡ 0 }
{
    let end = hall.work(&mut pass, &mut **desk);
    Worked { pass, end }
}

/// The caller's turns, and its work when it is done with them.
fn called<B: OfficeBrand, R: Wait, G: Gate, C: Caller<B> + Drop>(
    hall: &Hall<'_, B, R, G>,
    mut pass: TakePass<B>,
    desk: &mut CachePadded<Desk>,
    caller: C,
) -> Staff<B, C>
    requires { pass.owed ≡ 0 }
    ensures parts { result.pass.share.parts ≡ pass.share.parts }
    ensures went { C.went caller result.caller }
    ensures finished { C.finished result.caller }
    ensures over { AreOverFrom 1 result.brought }
{
    let caller = take_turns(hall.rt, hall.office, hall.queue, caller);
    let end = hall.work(&mut pass, &mut **desk);
    Staff::alone(pass, caller, end)
}

/// Starts a worker at the first desk and those at the others, and joins them when the caller, which has the last desk, has
/// ended. Where no thread can be made the caller does that work itself.
fn hire<'s, 'e, 'h, B, R, G, C>(
    scope: &'s Scope<'s, &'e ()>,
    hall: &'e Hall<'h, B, R, G>,
    desk: &'e mut CachePadded<Desk>,
    others: &'e mut [CachePadded<Desk>],
    mut pass: TakePass<B>,
    caller: C,
) -> Staff<B, C>
where
    B: OfficeBrand + Send + Sync,
    R: Threads + Wait + Sync,
    G: Gate,
    C: Caller<B> + Drop,
    requires places { length others.old < 16 }
    requires parts { length others.old < pass.share.parts }
    requires owed { pass.owed ≡ 0 }
    ensures parts { result.pass.share.parts ≡ pass.share.parts }
    ensures went { C.went caller result.caller }
    ensures finished { C.finished result.caller }
    ensures over { AreOverFrom (length others.old + 1) result.brought }
{
    let place = others.len();
    let Some((next, rest)) = others.split_first_mut() else {
        return called(hall, pass, desk, caller);
    };
    let part = hall.queue.split(&mut pass);
    let thread = Stack::new().stack_size(STACK).spawn_scoped_with(
        scope,
        Anything,
        move || -> Worked<B>
            requires { (part.share.parts ≡ 1) × (part.owed ≡ 0) }
        { worked(hall, part, desk) },
    );
    let staff = hire(scope, hall, next, rest, pass, caller);
    let worked = match thread {
        Ok(thread) => thread.join(hall.rt),
        Err(refused) => (refused.value)(),
    };
    staff.with(hall.queue, worked, place)
}
