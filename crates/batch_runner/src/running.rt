ghost use Rattle.std.specs.Prelude.{◌≡◌, ◌≤◌, List, Option, [], None, IfOk, IfSome, is_some, length};
ghost use Rattle.deck_reader.specs.declared.batch.Account.{Account};
ghost use Rattle.crossbeam_queue.specs.Passes.{view};
ghost use Rattle.batch_runner.specs.Outcome.{HasHalted, Outside, outside};
ghost use Rattle.batch_runner.specs.Progress.{GoesOn, HasAll, HasWritten, begun, progress};

use crate::clerk::{Clerk, Docket};
use account_book::Book;
use batch_io::{Gate, Sink, Source};
use crossbeam_utils::CachePadded;
use job_queue::{FreshQueue, PutPass, SettleBook};
use job_runner::Desk;
use office::{Office, OfficeBrand};
use operator_board::Board;
use std::alloc::{AllocError, Global};
use std::sync::{Arc, Wait};
use std::thread::Threads;
use worker_pool::{Pooled, gather, run_pool};

/// The bytes of a block that is larger than most that a job asks for.
const KEPT_ROOM: usize = 1_048_576;

/// The workers that run the jobs of a batch, each at a desk of its own, and how many accepted jobs may wait for them.
#[derive(Drop)]
pub struct Staff {
    pub(crate) desks: Vec<CachePadded<Desk>>,
    pub(crate) queue: u32,
    ghost some: { 1 ≤ length desks.items },
    ghost few: { length desks.items ≤ 16 },
    ghost room: { (1 ≤ queue) × (queue ≤ 64) },
}

impl Staff {
    /// 1 to 16 workers, for whom desks are made, and a queue of 1 to 64 places.
    pub fn new(alloc: Global, workers: u32, queue: u32) -> Result<Staff, AllocError>
        requires workers { (1 ≤ workers) × (workers ≤ 16) }
        requires queue { (1 ≤ queue) × (queue ≤ 64) }
        ensures { IfOk result (λ staff. (length staff.desks.items ≡ workers) × (staff.queue ≡ queue)) }
    {
        let desks = desks(alloc, workers)?;
        Ok(Staff { desks, queue })
    }
}

/// Asks for a block that is larger than most that a job asks for, and gives it back. An allocator that has seen such a block
/// come and go, as that of the GNU C library, keeps what a job gives back for the next one. Otherwise it gives that to the
/// system at the end of each job, and asks for it anew. No run ends where there is no such block.
fn keep_room(alloc: Global) {
    let mut room: Vec<u8> = Vec::new(alloc);
    let _refused = room.reserve_exact(KEPT_ROOM).is_err();
}

/// So many desks, each on lines of the caches of its own, so that no worker slows another down.
fn desks(alloc: Global, count: u32) -> Result<Vec<CachePadded<Desk>>, AllocError>
    ensures { IfOk result (λ desks. length desks.items ≡ count) }
{
    keep_room(alloc);
    let mut all = Vec::with_capacity(alloc, count as usize)?;
    for _ in 0..count {
        all.push(CachePadded::new(Desk::new(alloc)?))?;
    }
    Ok(all)
}

/// Lets a clerk read a batch and write all sections, while a worker at each of these desks runs the jobs.
pub(crate) fn run_jobs<
    's,
    'k,
    B: OfficeBrand + Send + Sync,
    R: Threads + Wait + Sync,
    S: Source,
    K: Sink,
    G: Gate,
>(
    rt: &R,
    alloc: Global,
    fresh: FreshQueue,
    book: Book,
    board: bool,
    desks: &mut [CachePadded<Desk>],
    gate: &G,
    mut clerk: Clerk<'s, 'k, S, K, Docket>,
) -> Clerk<'s, 'k, S, K, Docket>
    requires name { fresh.blank.name ≡ B.name }
    requires parts { fresh.blank.parts ≡ B.parts }
    requires table { fresh.ring.table.shared.table_id ≡ B.table }
    requires board { B.boarded ≡ board }
    requires desks { 1 ≤ length desks.old }
    requires few { length desks.old ≤ 16 }
    requires free { clerk.docket.halt ≡ None }
    requires none { clerk.docket.written ≡ 0 }
    requires undecided { clerk.docket.decisions.items ≡ [] }
    ensures same_ports { (result.src.ghost_name ≡ clerk.entry.src.ghost_name) × (result.sink.ghost_name ≡ clerk.entry.sink.ghost_name) }
    ensures all { (given : Option (List Account)) (start : Outside) → HasWritten given start (begun (outside (S.left clerk.entry.src.now) (S.faults clerk.entry.src.now) (K.written clerk.entry.sink.now) (K.faults clerk.entry.sink.now)) clerk.entry.docket.intake clerk.entry.docket.audit)
        → result.docket.halt ≡ None → HasAll given start (outside (S.left result.src.now) (S.faults result.src.now) (K.written result.sink.now) (K.faults result.sink.now)) result.docket }
    ensures some { (given : Option (List Account)) (start : Outside) → HasWritten given start (begun (outside (S.left clerk.entry.src.now) (S.faults clerk.entry.src.now) (K.written clerk.entry.sink.now) (K.faults clerk.entry.sink.now)) clerk.entry.docket.intake clerk.entry.docket.audit)
        → IfSome result.docket.halt (λ halt. HasHalted given start (outside (S.left result.src.now) (S.faults result.src.now) (K.written result.sink.now) (K.faults result.sink.now)) halt) }
    ensures line { result.docket.halt ≡ None → is_some result.docket.line ≡ board }
{
    let (queue, put, take, settled) = fresh.open::<B>();
    let Ok(office) = open_office(alloc, book, put, settled, board) else {
        clerk.docket.stop_without_memory();
        return clerk;
    };
    let (pooled, clerk) = run_pool(rt, alloc, office, queue, take, desks, gate, clerk);
    finish(rt, pooled, gate, clerk)
}

/// The office of a batch before any event, with a board or without one.
fn open_office<B: OfficeBrand>(
    alloc: Global,
    book: Book,
    put: PutPass<B>,
    settled: SettleBook<B>,
    board: bool,
) -> Result<Office<B>, AllocError>
    requires board { B.boarded ≡ board }
    requires nothing_put { (view put.pass).put ≡ [] }
    requires nothing_settled { settled.book.total ≡ 0 }
{
    if board {
        let (shown, writer, _reader) = Board::new(alloc, book.balances())?;
        let shown = Arc::new(alloc, shown)?;
        return Office::with_board(alloc, book, put, settled, shown, writer);
    }
    Office::new(alloc, book, put, settled)
}

/// Lets the clerk write what the workers have left, reads the office's board, and gathers the tickets.
fn finish<'s, 'k, B: OfficeBrand, R: Wait, S: Source, K: Sink, G: Gate>(
    rt: &R,
    mut pooled: Pooled<B>,
    gate: &G,
    mut clerk: Clerk<'s, 'k, S, K, Docket>,
) -> Clerk<'s, 'k, S, K, Docket>
    requires { B.parts ≡ 16 }
    ensures same_ports { (result.src.ghost_name ≡ clerk.entry.src.ghost_name) × (result.sink.ghost_name ≡ clerk.entry.sink.ghost_name) }
    ensures goes_on { GoesOn
        (progress clerk.entry.docket (outside (S.left clerk.entry.src.now) (S.faults clerk.entry.src.now) (K.written clerk.entry.sink.now) (K.faults clerk.entry.sink.now)))
        (progress result.docket (outside (S.left result.src.now) (S.faults result.src.now) (K.written result.sink.now) (K.faults result.sink.now))) }
    ensures intake { result.docket.intake ≡ clerk.entry.docket.intake }
    ensures halted { result.docket.halt ≡ None → clerk.entry.docket.halt ≡ None }
    ensures finished { result.docket.halt ≡ None → length result.docket.intake.jobs.items ≤ result.docket.written }
    ensures line { result.docket.halt ≡ None → is_some result.docket.line ≡ B.boarded }
{
    write_rest(rt, &mut pooled.office, gate, &mut clerk);
    clerk.docket.read_board(rt, &mut pooled.office);
    put_away(rt, pooled, clerk.docket.is_free());
    clerk
}

/// Gathers the tickets of a run that was finished.
fn put_away<B: OfficeBrand, R: Wait>(rt: &R, pooled: Pooled<B>, finished: bool)
    requires { B.parts ≡ 16 }
{
    if finished {
        gather(rt, pooled);
    }
}

/// Lets the clerk write what is left, with what the workers have brought.
fn write_rest<B: OfficeBrand, R: Wait, S: Source, K: Sink, G: Gate>(
    rt: &R,
    office: &mut Office<B>,
    gate: &G,
    clerk: &mut Clerk<'_, '_, S, K, Docket>,
)
    ensures same_ports { (clerk.new.src.ghost_name ≡ clerk.old.src.ghost_name) × (clerk.new.sink.ghost_name ≡ clerk.old.sink.ghost_name) }
    ensures goes_on { GoesOn
        (progress clerk.old.docket (outside (S.left clerk.old.src.now) (S.faults clerk.old.src.now) (K.written clerk.old.sink.now) (K.faults clerk.old.sink.now)))
        (progress clerk.new.docket (outside (S.left clerk.new.src.now) (S.faults clerk.new.src.now) (K.written clerk.new.sink.now) (K.faults clerk.new.sink.now))) }
    ensures intake { clerk.new.docket.intake ≡ clerk.old.docket.intake }
    ensures halted { clerk.new.docket.halt ≡ None → clerk.old.docket.halt ≡ None }
    ensures finished { clerk.new.docket.halt ≡ None → length clerk.new.docket.intake.jobs.items ≤ clerk.new.docket.written }
{
    clerk.docket.tell(gate);
    while clerk.docket.has_more() {
        clerk.write_next(office.next_section(rt));
        clerk.docket.tell(gate);
    }
}
