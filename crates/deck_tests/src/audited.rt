//! The audit, to which results of other jobs are brought.

use crate::cases::see;
use crate::reading::{jobs_of, read, result_of};
use account_book::Book;
use batch_listing::{Audit, heading};
use deck_reader::Job;
use job_runner::{Brought, Desk};
use std::alloc::{AllocError, Global};
use std::process::Abort;
use std::sync::Arc;
use std::test::Fail;

/// What is brought for each job.
#[derive(Clone, Copy)]
enum Bring {
    Nothing,
    Refusal,
    ItsOwnResult,
    TheResultOfAnother,
}

/// The third job's balance is just its reserve. The second and the third have the same deck.
const FOUR: &[u8] = b"%ACCOUNT ADA 312
%JOB A,ADA
BEGIN WRITE(1) END.
%JOB B,ADA
BEGIN WRITE(2) END.
%JOB C,ADA
BEGIN WRITE(2) END.
%JOB D,ADA
BEGIN WRITE(1) END.
";

const FOUR_LISTING: &[u8] = b"ALGOL W BATCH

JOB 1 A ADA
   1        1  BEGIN WRITE(1) END.
OUTPUT
             1
ENDED NORMALLY
CARDS 2 STEPS 2 LINES 1 CHARGE 5

JOB 2 B ADA
   1        1  BEGIN WRITE(2) END.
OUTPUT
             2
ENDED NORMALLY
CARDS 2 STEPS 2 LINES 1 CHARGE 5

JOB 3 C ADA
   1        1  BEGIN WRITE(2) END.
OUTPUT
             2
ENDED NORMALLY
CARDS 2 STEPS 2 LINES 1 CHARGE 5

JOB 4 D ADA
REFUSED: RESERVE 302, BALANCE 297

CLOSING BALANCES
ADA OPENING 312 CHARGES 15 CLOSING 297
STRAY CARDS 0
";

/// The result of a job, where there is one.
fn ended(alloc: Global, job: Option<&Arc<Job>>) -> Result<Option<Brought>, AllocError> {
    let Some(job) = job else {
        return Ok(None);
    };
    match result_of(alloc, job)? {
        Some(ended) => Ok(Some(Brought::Ended(ended))),
        None => Ok(None),
    }
}

/// What is brought for the job at this place.
fn brought(
    alloc: Global,
    bring: Bring,
    jobs: &[Arc<Job>],
    place: usize,
) -> Result<Option<Brought>, AllocError> {
    match bring {
        Bring::Nothing => Ok(None),
        Bring::Refusal => Ok(Some(Brought::Refused)),
        Bring::ItsOwnResult => ended(alloc, jobs.get(place)),
        Bring::TheResultOfAnother => ended(alloc, jobs.iter().rev().nth(place)),
    }
}

/// Adds the sections of the jobs.
fn push_sections(
    listing: &mut Vec<u8>,
    alloc: Global,
    audit: &mut Audit,
    desk: &mut Option<Desk>,
    jobs: &[Arc<Job>],
    bring: Bring,
) -> Result<(), AllocError> {
    for (place, job) in jobs.iter().enumerate() {
        let brought = brought(alloc, bring, jobs, place)?;
        let section = audit.section(alloc, job, brought, desk)?;
        listing.extend_from_slice(section.as_slice())?;
    }
    Ok(())
}

/// The listing of the jobs.
fn listing_of(
    alloc: Global,
    audit: &mut Audit,
    desk: &mut Option<Desk>,
    jobs: &[Arc<Job>],
    bring: Bring,
) -> Result<Vec<u8>, AllocError> {
    let mut listing = Vec::from_slice(alloc, heading())?;
    push_sections(&mut listing, alloc, audit, desk, jobs, bring)?;
    let closing = audit.closing(alloc, 0)?;
    listing.extend_from_slice(closing.as_slice())?;
    Ok(listing)
}

/// The steps of the last job that was run at a desk, where there is one.
fn steps_at(desk: &Option<Desk>) -> u32 {
    match desk {
        Some(desk) => desk.steps(),
        None => 0,
    }
}

/// Sees that the audit makes the listing, whatever is brought. It runs so many jobs itself, the last one in so many steps.
fn check_listing(
    rt: &impl Abort,
    alloc: Global,
    bring: Bring,
    reruns: u32,
    steps: u32,
) -> Result<(), Fail> {
    let batch = read(alloc, FOUR)?;
    let mut audit = Audit::new(Book::open(alloc, batch.accounts.as_slice())?)?;
    let jobs = jobs_of(alloc, batch)?;
    let mut desk = None;
    let listing = listing_of(alloc, &mut audit, &mut desk, jobs.as_slice(), bring)?;
    see(rt, "the listing", listing.as_slice() == FOUR_LISTING);
    see(rt, "how many jobs it runs", audit.reruns() == reruns);
    see(rt, "the steps of the last", steps_at(&desk) == steps);
    Ok(())
}

#[test]
fn a_section_is_that_of_its_place_whatever_is_brought(rt: HostRuntime) -> Result<(), Fail> {
    let alloc = rt.alloc();
    check_listing(&rt, alloc, Bring::Nothing, 3, 2)?;
    check_listing(&rt, alloc, Bring::Refusal, 3, 2)?;
    check_listing(&rt, alloc, Bring::ItsOwnResult, 0, 0)?;
    check_listing(&rt, alloc, Bring::TheResultOfAnother, 3, 2)
}
