//! Workers, and an office at which they settle their tickets.
ghost use Rattle.std.specs.Prelude.{◌≡◌, ◌≤◌, IfOk, ⊤, false, length};

use crate::cases::see;
use crate::reading::{jobs_of, read, result_of};
use account_book::Book;
use batch_io::OpenGate;
use crossbeam_utils::CachePadded;
use deck_reader::Job;
use job_queue::{FreshQueue, JobQueue, TakePass};
use job_runner::{Brought, Desk, Ended};
use office::{Admitted, Office, OfficeBrand, Standing};
use std::alloc::{AllocError, Global};
use std::marker::Brand;
use std::process::Abort;
use std::sync::{Arc, Mutex, Wait};
use std::test::Fail;
use std::thread::Threads;
use worker_pool::{Caller, Turn, WorkEnd, gather, run_pool, work};

/// Two jobs of 302 each.
const TWO: &[u8] = b"%ACCOUNT ADA 1000\n%JOB ONE,ADA\nBEGIN END.\n%JOB TWO,ADA\nBEGIN END.\n";

/// What an office is opened with.
#[derive(Drop)]
struct Opening {
    book: Book,
    jobs: Vec<Arc<Job>>,
}

/// The book and the jobs of a batch.
fn open_batch(alloc: Global, input: &[u8]) -> Result<Opening, Fail> {
    let batch = read(alloc, input)?;
    let book = Book::open(alloc, batch.accounts.as_slice())?;
    let jobs = jobs_of(alloc, batch)?;
    Ok(Opening { book, jobs })
}

/// Lets jobs arrive.
fn let_in<B: OfficeBrand, R: Wait>(
    rt: &R,
    office: &mut Office<B>,
    jobs: &[Arc<Job>],
) -> Result<(), AllocError> {
    for job in jobs {
        let _arrived = office.arrive(rt, job.clone()?);
    }
    Ok(())
}

/// What one worker leaves of the batch: whether the office was over, what is owed, the standings of both jobs, and what is
/// reserved.
#[derive(Drop)]
struct Alone {
    over: bool,
    owed: u64,
    first: Standing,
    second: Standing,
    reserved: u64,
}

fn worked_alone<B: OfficeBrand, R: Wait>(
    rt: &R,
    alloc: Global,
    fresh: FreshQueue,
    opening: Opening,
    desk: &mut Desk,
) -> Result<Alone, AllocError>
    requires name { fresh.blank.name ≡ B.name }
    requires parts { fresh.blank.parts ≡ B.parts }
    requires table { fresh.ring.table.shared.table_id ≡ B.table }
    requires board { B.boarded ≡ false }
{
    let (queue, put, mut pass, settled) = fresh.open::<B>();
    let mut office = Office::new(alloc, opening.book, put, settled)?;
    let_in(rt, &mut office, opening.jobs.as_slice())?;
    office.close_arrivals();
    let office = Mutex::new(office);
    let end = work(rt, alloc, &office, &queue, &mut pass, desk, &OpenGate);
    let office = office.into_inner();
    Ok(Alone {
        over: matches!(&end, WorkEnd::Over),
        owed: pass.owed(),
        first: office.standing(1),
        second: office.standing(2),
        reserved: office.reserved(),
    })
}

#[test]
fn one_worker_ends_both_jobs(rt: HostRuntime) -> Result<(), Fail> {
    let alloc = rt.alloc();
    let mut desk = Desk::new(alloc)?;
    let opening = open_batch(alloc, TWO)?;
    let fresh = FreshQueue::new(alloc, 1)?;
    let alone = worked_alone::<Brand, HostRuntime>(&rt, alloc, fresh, opening, &mut desk)?;
    see(&rt, "over", alone.over);
    see(&rt, "the first", alone.first == Standing::Ended);
    see(&rt, "the second", alone.second == Standing::Ended);
    see(&rt, "nothing owed", alone.owed == 0);
    see(&rt, "nothing reserved", alone.reserved == 0);
    Ok(())
}

/// A caller that lets the office decide until nothing more can be decided now, and stops it then if it is to.
#[derive(Drop)]
struct Decides {
    stops: bool,
}

impl<B: OfficeBrand> Caller<B> for Decides {
    ghost went = { λ a b. ⊤ };

    ghost finished = { λ a. ⊤ };

    fn turn<R: Wait>(&mut self, rt: &R, office: &Mutex<Office<B>>, queue: &JobQueue<B>) -> Turn {
        let mut office = office.lock(rt);
        if let Admitted::Accepted { job: _ } = office.admit(rt, queue) {
            return Turn::More;
        }
        if self.stops {
            office.stop();
        }
        Turn::Done
    }

    ghost stays = { λ c. tt };

    ghost goes_on = { λ a b c e d. tt };
}

/// Sees that so much is left in the queue once the workers at these desks have returned, and nothing is brought back.
fn check_left<B: OfficeBrand + Send + Sync, R: Threads + Wait + Sync + Abort>(
    rt: &R,
    alloc: Global,
    fresh: FreshQueue,
    opening: Opening,
    desks: &mut [CachePadded<Desk>],
    stops: bool,
    left: u64,
) -> Result<(), AllocError>
    requires some { 1 ≤ length desks.old }
    requires few { length desks.old ≤ 16 }
    requires name { fresh.blank.name ≡ B.name }
    requires parts { fresh.blank.parts ≡ B.parts }
    requires table { fresh.ring.table.shared.table_id ≡ B.table }
    requires board { B.boarded ≡ false }
{
    let (queue, put, pass, settled) = fresh.open::<B>();
    let mut office = Office::new(alloc, opening.book, put, settled)?;
    let_in(rt, &mut office, opening.jobs.as_slice())?;
    office.close_arrivals();
    let caller = Decides { stops };
    let (pooled, _caller) = run_pool(rt, alloc, office, queue, pass, desks, &OpenGate, caller);
    let gathered = gather(rt, pooled);
    see(rt, "reserved", gathered.reserved == left);
    see(rt, "returned", gathered.returned == 0);
    see(rt, "left", gathered.left == left);
    Ok(())
}

/// Desks with nothing else on their lines of the caches.
fn desks(alloc: Global, count: u32) -> Result<Vec<CachePadded<Desk>>, AllocError>
    ensures { IfOk result (λ desks. length desks.items ≡ count) }
{
    let mut all = Vec::with_capacity(alloc, count as usize)?;
    for _ in 0..count {
        all.push(CachePadded::new(Desk::new(alloc)?))?;
    }
    Ok(all)
}

/// Sees that so much of both jobs is left by so many workers.
fn check_pool<R: Threads + Wait + Sync + Abort>(
    rt: &R,
    alloc: Global,
    workers: u32,
    stops: bool,
    left: u64,
) -> Result<(), Fail>
    requires some { 1 ≤ workers }
    requires few { workers ≤ 16 }
{
    let opening = open_batch(alloc, TWO)?;
    let fresh = FreshQueue::new(alloc, 2)?;
    let mut desks = desks(alloc, workers)?;
    let desks = desks.as_mut_slice();
    check_left::<Brand, R>(rt, alloc, fresh, opening, desks, stops, left)?;
    Ok(())
}

/// Two workers end both jobs, and an office that was stopped before leaves both to be gathered.
#[test]
fn what_workers_leave_is_gathered(rt: HostRuntime) -> Result<(), Fail> {
    check_pool(&rt, rt.alloc(), 2, false, 0)?;
    check_pool(&rt, rt.alloc(), 1, true, 604)
}

/// Two jobs, of which the second waits for the end of the first: they reserve 100 and 120, and cost 10 and 7.
const WAITING: &[u8] = b"%ACCOUNT ADA 150
%JOB ONE,ADA,STEPS=500,LINES=45
BEGIN
WRITE(\"A\");
WRITE(\"B\")
END.
%JOB TWO,ADA,STEPS=600,LINES=55
BEGIN
WRITE(1)
END.
";

/// The number of the job whose result is handed out next.
fn hand_out<B: OfficeBrand, R: Wait>(rt: &R, office: &mut Office<B>) -> Option<u32> {
    match office.next_section(rt) {
        Some(Brought::Ended(ended)) => Some(ended.job().number),
        Some(Brought::Refused) | None => None,
    }
}

/// Lets the first job of two end, after the second one's result was brought in its place.
fn first_ends<B: OfficeBrand, R: Wait + Abort>(
    rt: &R,
    office: &mut Office<B>,
    queue: &JobQueue<B>,
    pass: &mut TakePass<B>,
    own: Ended,
    other: Ended,
) -> Result<(), Fail> {
    let first = Admitted::Accepted { job: 1 };
    see(rt, "the first", office.admit(rt, queue) == first);
    let waits = Admitted::Waits {
        job: 2,
        low: 50,
        high: 145,
    };
    see(rt, "the second", office.admit(rt, queue) == waits);
    let Some(ticket) = queue.take(rt, pass) else {
        return Err(Fail::from("a ticket"));
    };
    let Err(stranger) = office.settle(rt, pass, ticket, other) else {
        return Err(Fail::from("the second job's result doesn't end the first"));
    };
    see(rt, "it goes on", stranger.kept == Standing::Running);
    see(rt, "its reserve is owed", pass.owed() == 100);
    let settled = office.settle(rt, pass, stranger.ticket, own).is_ok();
    see(rt, "its own result", settled);
    see(rt, "nothing is owed", pass.owed() == 0);
    Ok(())
}

/// Sees what an office decides of both jobs, before and after the first one's end.
fn check_waiting<B: OfficeBrand, R: Wait + Abort>(
    rt: &R,
    alloc: Global,
    fresh: FreshQueue,
    opening: Opening,
    own: Ended,
    other: Ended,
) -> Result<(), Fail>
    requires name { fresh.blank.name ≡ B.name }
    requires parts { fresh.blank.parts ≡ B.parts }
    requires table { fresh.ring.table.shared.table_id ≡ B.table }
    requires board { B.boarded ≡ false }
{
    let (queue, put, mut pass, settled) = fresh.open::<B>();
    let mut office = Office::new(alloc, opening.book, put, settled)?;
    let_in(rt, &mut office, opening.jobs.as_slice())?;
    first_ends(rt, &mut office, &queue, &mut pass, own, other)?;
    let second = Admitted::Accepted { job: 2 };
    see(rt, "then the second", office.admit(rt, &queue) == second);
    let none = Admitted::NoneArrived;
    see(rt, "no other", office.admit(rt, &queue) == none);
    see(
        rt,
        "the first section",
        hand_out(rt, &mut office) == Some(1),
    );
    see(rt, "no other section", hand_out(rt, &mut office).is_none());
    Ok(())
}

#[test]
fn a_job_waits_for_the_end_of_another(rt: HostRuntime) -> Result<(), Fail> {
    let alloc = rt.alloc();
    let opening = open_batch(alloc, WAITING)?;
    let [one, two] = opening.jobs.as_slice() else {
        return Err(Fail::from("two jobs"));
    };
    let (Some(own), Some(other)) = (result_of(alloc, one)?, result_of(alloc, two)?) else {
        return Err(Fail::from("no flaws"));
    };
    let fresh = FreshQueue::new(alloc, 1)?;
    check_waiting::<Brand, HostRuntime>(&rt, alloc, fresh, opening, own, other)
}
