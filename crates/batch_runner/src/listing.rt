ghost use Rattle.std.specs.Prelude.{◌≡◌, ◌≤◌, ◌+◌, true, List, Option, None, IfErr, IfOk, IfSome, OnErr, OnOk, IsErrOf, is_some, length, map};
ghost use Rattle.batch_io.specs.Causes.{Rose};
ghost use Rattle.deck_reader.specs.declared.batch.Account.{Account};
ghost use Rattle.deck_reader.specs.Batch.{batch, too_large};
ghost use Rattle.batch_listing.specs.Tallies.{listing_tally};
ghost use Rattle.batch_runner.specs.Outcome.{HasHalted, IsCutShort, IsListed, Outside, outside};
ghost use Rattle.batch_intake.specs.Halts.{IsTooLarge};
ghost use Rattle.batch_runner.specs.Progress.{HasAll, HasWritten, IsDecided, IsOpened, begun};
ghost use Rattle.batch_intake.specs.Taking.{StopsFront};

use crate::board::BoardLine;
use crate::clerk::{Clerk, Docket};
use crate::nowhere::Nowhere;
use crate::running::{Staff, run_jobs};
use account_book::{Book, Decision};
use batch_intake::{Front, Halt, Intake, read_front};
use batch_io::{Gate, MemSource, Sink, Source};
use batch_listing::{Audit, heading, write_all_of};
use batch_summary::Tally;
use crossbeam_utils::CachePadded;
use deck_reader::{Account, Job, Listed};
use job_queue::FreshQueue;
use job_runner::Desk;
use std::alloc::{AllocError, Global};
use std::marker::Brand;
use std::sync::{Arc, Wait};
use std::thread::Threads;

/// What is left behind a listing that was written whole.
#[derive(Drop)]
pub struct Written {
    /// The audit, which knows the closing balances.
    pub audit: Audit,
    /// The line of the operator's board, where there was one.
    pub line: Option<BoardLine>,
}

/// Reads a batch, runs its jobs and writes its listing: the heading, each section as it is ready, and the closing lines. The
/// jobs run while the batch is read. The accounts are those that are given, or else those that the cards open. Gives back the
/// audit, and the line of the operator's board where there is to be one.
pub fn write_listing<R: Threads + Wait + Sync, S: Source, K: Sink, G: Gate>(
    rt: &R,
    alloc: Global,
    given: Option<Listed<Account>>,
    src: &mut S,
    sink: &mut K,
    staff: Staff,
    board: bool,
    gate: &G,
) -> Result<Written, Halt>
    requires few { IfSome given (λ accounts. length accounts ≤ 500) }

    // What was written is the listing of the batch, or a prefix of the listing of what was read.
    ensures done { IfOk result (λ written. IsListed given (S.left src.old) (S.left src.new) (K.written sink.old) (K.written sink.new) written.audit) }
    ensures cut { OnErr result
        (IsCutShort given (S.left src.old) (S.left src.new) (K.written sink.old) (K.written sink.new)) }
    ensures line { IfOk result (λ written. is_some written.line ≡ board) }

    // Each answer has its cause, and no fault is passed over.
    ensures kept { OnOk result ((S.faults src.new ≡ S.faults src.old) × (K.faults sink.new ≡ K.faults sink.old)) }
    ensures read { IsErrOf result Halt.ReadFault → Rose (S.faults src.old) (S.faults src.new) }
    ensures write { IsErrOf result Halt.WriteFault → Rose (K.faults sink.old) (K.faults sink.new) }
    ensures large { IsErrOf result Halt.TooLarge → IsTooLarge (S.left src.old) (S.left src.new) }
{
    let served = write_sections(rt, alloc, given, src, sink, staff, board, gate)?;
    let closing = served.audit.closing(alloc, served.stray)?;
    write_all_of(sink, closing.as_slice())?;
    Ok(Written {
        audit: served.audit,
        line: served.line,
    })
}

/// Reads a batch, runs its jobs, and tells what its listing comes to.
pub fn tally_listing<R: Threads + Wait + Sync, G: Gate>(
    rt: &R,
    alloc: Global,
    mut src: MemSource,
    staff: Staff,
    gate: &G,
) -> Result<Tally, Halt>
    ensures tally { IfOk result (λ tally. tally ≡ listing_tally (batch src.left)) }
    ensures write { IsErrOf result Halt.WriteFault → ⊥ }
    ensures large { IsErrOf result Halt.TooLarge → too_large src.left ≡ true }
{
    let mut nowhere = Nowhere;
    let served = write_sections(rt, alloc, None, &mut src, &mut nowhere, staff, false, gate)?;
    let closing = served.audit.closing(alloc, served.stray)?;
    let sections = served.audit.tally();
    let listing = with_closing(sections, closing.as_slice())?;
    Ok(listing)
}

/// What sections and the closing lines behind them come to.
fn with_closing(sections: Tally, closing: &[u8]) -> Result<Tally, AllocError>
    ensures { IfOk result (λ listing. listing ≡ record sections { bytes = sections.bytes + length closing.now }) }
{
    let bytes = sections
        .bytes
        .checked_add(closing.len() as u64)
        .ok_or(AllocError)?;
    Ok(Tally { bytes, ..sections })
}

/// What is left of a batch behind its last section.
#[derive(Drop)]
pub(crate) struct Served {
    pub(crate) audit: Audit,
    stray: u32,
    pub(crate) jobs: Vec<Arc<Job>>,
    /// What became of each job.
    pub(crate) decisions: Vec<Decision>,
    /// The line of the operator's board, where there was one.
    line: Option<BoardLine>,
}

/// Reads a batch, runs its jobs, and writes the heading and the section of each job, in order.
pub(crate) fn write_sections<R: Threads + Wait + Sync, S: Source, K: Sink, G: Gate>(
    rt: &R,
    alloc: Global,
    given: Option<Listed<Account>>,
    src: &mut S,
    sink: &mut K,
    staff: Staff,
    board: bool,
    gate: &G,
) -> Result<Served, Halt>
    requires few { IfSome given (λ accounts. length accounts ≤ 500) }
    ensures ok { IfOk result (λ served. IsDecided given (outside (S.left src.old) (S.faults src.old) (K.written sink.old) (K.faults sink.old)) (outside (S.left src.new) (S.faults src.new) (K.written sink.new) (K.faults sink.new)) served.audit served.stray (map (λ j. j.value) served.jobs.items) served.decisions.items) }
    ensures err { IfErr result (λ halt. HasHalted given (outside (S.left src.old) (S.faults src.old) (K.written sink.old) (K.faults sink.old)) (outside (S.left src.new) (S.faults src.new) (K.written sink.new) (K.faults sink.new)) halt) }
    ensures line { IfOk result (λ served. is_some served.line ≡ board) }
{
    let Staff { mut desks, queue } = staff;
    let opened = open_batch(alloc, given, src, queue)?;
    write_all_of(sink, heading())?;
    let Opened {
        intake,
        book,
        audit,
        fresh,
    } = opened;
    let desks = desks.as_mut_slice();
    let docket = serve(
        rt, alloc, src, sink, intake, book, audit, fresh, board, desks, gate,
    );
    match docket.halt {
        None => {
            let intake = docket.intake;
            Ok(Served {
                audit: docket.audit,
                stray: intake.stray(),
                jobs: intake.jobs,
                decisions: docket.decisions,
                line: docket.line,
            })
        }
        Some(halt) => Err(halt),
    }
}

/// What is needed before the first job is run.
#[derive(Drop)]
struct Opened {
    intake: Intake,
    book: Book,
    audit: Audit,
    fresh: FreshQueue,
}

/// Reads the accounts of a batch, and opens its books and its queue of so many places.
fn open_batch<S: Source>(
    alloc: Global,
    given: Option<Listed<Account>>,
    src: &mut S,
    queue: u32,
) -> Result<Opened, Halt>
    requires few { IfSome given (λ accounts. length accounts ≤ 500) }
    requires queue { (1 ≤ queue) × (queue ≤ 64) }
    ensures ok { IfOk result (λ opened. IsOpened given (S.left src.old) (S.left src.new) opened.intake opened.audit) }
    ensures kept { OnOk result (S.faults src.new ≡ S.faults src.old) }
    ensures err { IfErr result (λ halt. StopsFront (S.left src.old) (S.left src.new) (S.faults src.old) (S.faults src.new) halt) }
{
    let Front { accounts, intake } = read_front(alloc, given, src)?;
    let book = Book::open(alloc, accounts.as_slice())?;
    let audit = Audit::new(book)?;
    Ok(Opened {
        intake,
        book: Book::open(alloc, accounts.as_slice())?,
        audit,
        fresh: FreshQueue::new(alloc, queue)?,
    })
}

/// Lets a clerk read on and write all sections, while workers at these desks run the jobs. Gives back what the clerk kept.
fn serve<R: Threads + Wait + Sync, S: Source, K: Sink, G: Gate>(
    rt: &R,
    alloc: Global,
    src: &mut S,
    sink: &mut K,
    intake: Intake,
    book: Book,
    audit: Audit,
    fresh: FreshQueue,
    board: bool,
    desks: &mut [CachePadded<Desk>],
    gate: &G,
) -> Docket
    requires desks { 1 ≤ length desks.old }
    requires few { length desks.old ≤ 16 }
    ensures all { (given : Option (List Account)) (start : Outside) → HasWritten given start (begun (outside (S.left src.old) (S.faults src.old) (K.written sink.old) (K.faults sink.old)) intake audit) → result.halt ≡ None
        → HasAll given start (outside (S.left src.new) (S.faults src.new) (K.written sink.new) (K.faults sink.new)) result }
    ensures some { (given : Option (List Account)) (start : Outside) → HasWritten given start (begun (outside (S.left src.old) (S.faults src.old) (K.written sink.old) (K.faults sink.old)) intake audit)
        → IfSome result.halt (λ halt. HasHalted given start (outside (S.left src.new) (S.faults src.new) (K.written sink.new) (K.faults sink.new)) halt) }
    ensures line { result.halt ≡ None → is_some result.line ≡ board }
{
    let docket = Docket::new(alloc, intake, audit);
    let clerk = Clerk { src, sink, docket };
    let after = run_jobs::<Brand, R, S, K, G>(rt, alloc, fresh, book, board, desks, gate, clerk);
    after.into_docket()
}
