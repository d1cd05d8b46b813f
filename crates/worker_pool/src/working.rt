//! What a worker does.
ghost use Rattle.std.specs.Prelude.{◌≡◌, ◌≤◌, None};
ghost use Rattle.worker_pool.specs.Ends.{debt_of, debt_in};
ghost use Rattle.worker_pool.specs.Jobs.{IsFlawless};

use crate::end::WorkEnd;
use batch_io::Gate;
use deck_reader::Job;
use job_queue::{JobQueue, TakePass, Ticket};
use job_runner::{Desk, Shelf, run_job};
use office::{Admitted, Office, OfficeBrand, Standing};
use std::alloc::{AllocError, Global};
use std::sync::{Arc, Mutex, Wait};
use std::thread;
use std::thread::Parker;
use std::time::Duration;

/// How often a worker that finds nothing to do looks again at once, before it naps.
const LOOKS: u32 = 100;

/// How many microseconds its first nap has. Each further one has twice as many, so that a processor without work isn't kept
/// busy.
const SHORTEST_NAP: u64 = 100;

/// How many microseconds a nap has at most, so that a job that comes doesn't wait longer.
const LONGEST_NAP: u64 = 10_000;

/// Works until the office is over: takes a ticket, runs its job and settles it; where there is no ticket, lets the office
/// decide the next job. Each library that its jobs name is prepared once. Where a ticket can't be settled the office is
/// stopped, and the ticket is brought back. The pass then owes its amount, and nothing where there is none.
pub fn work<B: OfficeBrand, R: Wait, G: Gate>(
    rt: &R,
    alloc: Global,
    office: &Mutex<Office<B>>,
    queue: &JobQueue<B>,
    pass: &mut TakePass<B>,
    desk: &mut Desk,
    gate: &G,
) -> WorkEnd
    requires { pass.old.owed ≡ 0 }
    ensures owed { pass.new.owed ≡ debt_of result }
    ensures parts { pass.new.share.parts ≡ pass.old.share.parts }
{
    let mut idle = Idle::new();
    let mut shelf = Shelf::new(alloc);
    for _ in rt.forever() {
        if office.lock(rt).is_over() {
            return WorkEnd::Over;
        }
        match queue.take(rt, pass) {
            None => {
                if decides(rt, office, queue) {
                    idle.end();
                } else {
                    idle.rest(rt);
                }
            }
            Some(ticket) => {
                idle.end();
                if let Some(end) = serve(rt, alloc, office, pass, ticket, desk, &mut shelf, gate) {
                    office.lock(rt).stop();
                    return end;
                }
            }
        }
    }
    unreachable!()
}

/// How a worker waits that finds nothing to do.
#[derive(Drop)]
struct Idle {
    parker: Parker,
    /// How often it looks at once before it naps.
    looks: u32,
    /// How many microseconds its next nap has.
    nap: u64,
    ghost short: { nap ≤ 10000 },
}

impl Idle {
    /// Before the first look.
    fn new() -> Idle {
        Idle {
            parker: Parker::new(),
            looks: LOOKS,
            nap: SHORTEST_NAP,
        }
    }

    /// Waits for the next look: at first not at all, then for naps that grow.
    fn rest<R: Wait>(&mut self, rt: &R) {
        if self.looks > 0 {
            self.looks -= 1;
            thread::yield_now();
        } else {
            self.parker
                .park_timeout(rt, Duration::from_micros(self.nap));
            self.nap = (2 * self.nap).min(LONGEST_NAP);
        }
    }

    /// There was something to do, so more may come soon.
    fn end(&mut self) {
        self.looks = LOOKS;
        self.nap = SHORTEST_NAP;
    }
}

/// Lets the office decide the next job. Whether it has decided one.
fn decides<B: OfficeBrand, R: Wait>(
    rt: &R,
    office: &Mutex<Office<B>>,
    queue: &JobQueue<B>,
) -> bool {
    // The lock is given back before the answer is looked at.
    let admitted = office.lock(rt).admit(rt, queue);
    match admitted {
        Admitted::Accepted { .. } | Admitted::Refused { .. } | Admitted::Flawed { .. } => true,
        Admitted::Waits { .. } | Admitted::Full { .. } | Admitted::NoneArrived => false,
    }
}

/// Runs the job of a ticket and settles it. There is an end where that can't be.
fn serve<B: OfficeBrand, R: Wait, G: Gate>(
    rt: &R,
    alloc: Global,
    office: &Mutex<Office<B>>,
    pass: &mut TakePass<B>,
    ticket: Ticket,
    desk: &mut Desk,
    shelf: &mut Shelf,
    gate: &G,
) -> Option<WorkEnd>
    requires { pass.old.owed ≡ ticket.amount }
    ensures owed { pass.new.owed ≡ debt_in result }
    ensures parts { pass.new.share.parts ≡ pass.old.share.parts }
{
    let job = match kept_job(rt, office, ticket.number()) {
        Kept::Running(job) => job,
        Kept::Otherwise(kept) => return Some(WorkEnd::Unkept { ticket, kept }),
        Kept::NoMemory => return Some(WorkEnd::NoMemory(ticket)),
    };
    gate.enter(ticket.number());
    let ran = run_job(alloc, desk, shelf, &job);
    gate.leave(ticket.number());
    let Ok(ended) = ran else {
        return Some(WorkEnd::NoMemory(ticket));
    };
    let settled = office.lock(rt).settle(rt, pass, ticket, ended);
    match settled {
        Ok(()) => None,
        Err(stranger) => Some(WorkEnd::Unkept {
            ticket: stranger.ticket,
            kept: stranger.kept,
        }),
    }
}

/// What the office keeps for the number of a ticket.
#[derive(Drop)]
enum Kept {
    /// A running job.
    Running(Arc<Job>),
    /// Something else.
    Otherwise(Standing),
    /// Memory is wanting to tell.
    NoMemory,
}

/// Asks the office, under its lock.
fn kept_job<B: OfficeBrand, R: Wait>(rt: &R, office: &Mutex<Office<B>>, number: u32) -> Kept
    ensures { IsFlawless result }
{
    let office = office.lock(rt);
    match office.running(number) {
        Ok(Some(job)) => Kept::Running(job),
        Ok(None) => Kept::Otherwise(office.standing(number)),
        Err(AllocError) => Kept::NoMemory,
    }
}
