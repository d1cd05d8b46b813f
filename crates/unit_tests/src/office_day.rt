ghost use Rattle.std.specs.Prelude.{◌≡◌, ◌≤◌, IfOk, [], false, true, length};
ghost use Rattle.crossbeam_queue.specs.Passes.{view};
ghost use Rattle.crossbeam_utils.specs.Seq.{cell_view};

use crate::rows::see;
use account_book::Book;
use deck_reader::{Batch, FeedError, Flaw, Job, Reader};
use job_queue::{FreshQueue, PutPass, SettleBook};
use office::{Admitted, ArriveError, Office, OfficeBrand, Standing};
use operator_board::{Board, Tallies};
use std::alloc::{AllocError, Global};
use std::marker::Brand;
use std::sync::{Arc, Mutex, Wait};
use std::test::Fail;
use std::thread;
use std::thread::Threads;

/// What came of the jobs of a batch in an office.
#[derive(Clone, Copy, PartialEq, Eq)]
struct Seen {
    /// What the first two decisions answered.
    admitted: [Admitted; 2],
    /// The number of the ticket that was taken then, and whether another was there.
    taken: (u32, bool),
    /// What the next decision answered.
    next: Admitted,
    /// The number of the job that runs as job 1.
    running: u32,
    standings: [Standing; 4],
    /// What is owed for the ticket, and what is reserved.
    amounts: (u64, u64),
    /// What the last job was told when it came again.
    again: Result<(), ArriveError>,
    over: bool,
    events: usize,
    /// How many events of each kind the office tells, and what stands on its board.
    tallies: Tallies,
    board: Option<Tallies>,
}

fn read(alloc: Global, input: &[u8]) -> Result<Batch, FeedError>
    ensures { IfOk result (λ batch. length batch.accounts ≤ 500) }
{
    let mut reader = Reader::new(alloc)?;
    reader.feed(input)?;
    reader.finish()
}

fn jobs_of(alloc: Global, batch: Batch) -> Result<Vec<Arc<Job>>, AllocError> {
    let mut jobs = Vec::new(alloc);
    for job in batch.jobs.into_vec() {
        jobs.push(Arc::new(alloc, job)?)?;
    }
    Ok(jobs)
}

/// Lets all jobs arrive, and gives what the last one was told.
fn let_in<B: OfficeBrand, R: Wait>(
    rt: &R,
    office: &mut Office<B>,
    jobs: &[Arc<Job>],
) -> Result<Result<(), ArriveError>, AllocError> {
    let mut told = Ok(());
    for job in jobs {
        told = office.arrive(rt, job.clone()?);
    }
    Ok(told)
}

/// The office of a day, with a board or without one.
fn opened<B: OfficeBrand>(
    alloc: Global,
    book: Book,
    put: PutPass<B>,
    settled: SettleBook<B>,
    boarded: bool,
) -> Result<Office<B>, AllocError>
    requires board { B.boarded ≡ boarded }
    requires nothing_put { (view put.pass).put ≡ [] }
    requires nothing_settled { settled.book.total ≡ 0 }
{
    if !boarded {
        return Office::new(alloc, book, put, settled);
    }
    let (board, writer, _reader) = Board::new(alloc, book.balances())?;
    let board = Arc::new(alloc, board)?;
    Office::with_board(alloc, book, put, settled, board, writer)
}

fn day<B: OfficeBrand + Send + Sync, R: Threads + Wait + Sync>(
    rt: &R,
    alloc: Global,
    fresh: FreshQueue,
    book: Book,
    boarded: bool,
    jobs: &[Arc<Job>],
) -> Result<Seen, AllocError>
    requires name { fresh.blank.name ≡ B.name }
    requires parts { fresh.blank.parts ≡ B.parts }
    requires table { fresh.ring.table.shared.table_id ≡ B.table }
    requires board { B.boarded ≡ boarded }
{
    let (queue, put, mut pass, settled) = fresh.open::<B>();
    let mut office = opened(alloc, book, put, settled, boarded)?;
    let _told = let_in(rt, &mut office, jobs)?;
    office.close_arrivals();
    let admitted = [office.admit(rt, &queue), office.admit(rt, &queue)];
    let ticket = queue.take(rt, &mut pass).map_or(0, |t| t.number());
    let taken = (ticket, queue.take(rt, &mut pass).is_some());
    let next = office.admit(rt, &queue);
    let running = office.running(1)?.map_or(0, |job| job.number);
    let standings = [
        office.standing(0),
        office.standing(1),
        office.standing(2),
        office.standing(3),
    ];
    let again = let_in(rt, &mut office, jobs)?;
    let events = office.journal().len();
    let (tallies, board) = (office.tallies(), office.board_read(rt));
    let shared = Mutex::new(office);
    let (reserved, over) = thread::join(
        rt,
        || shared.lock(rt).reserved(),
        || shared.lock(rt).is_over(),
    );
    Ok(Seen {
        admitted,
        taken,
        next,
        running,
        standings,
        amounts: (pass.owed(), reserved),
        again,
        over,
        events,
        tallies,
        board,
    })
}

const TWO_THAT_WAIT: &[u8] = b"%ACCOUNT ADA 150
%JOB ONE,ADA,STEPS=500,LINES=45
BEGIN
WRITE(\"A\");
WRITE(\"B\")
END.
%JOB TWO,ADA,STEPS=600,LINES=55
BEGIN
WRITE(1);
END.
";

const TWO_ALIKE: &[u8] = b"%ACCOUNT ADA 1000
%JOB A,ADA
BEGIN END.
%JOB B,ADA
BEGIN END.
";

const TWO_REFUSED: &[u8] = b"%ACCOUNT BOB 301
%JOB A,BOB,STEPS=0
%JOB B,BOB
BEGIN END.
";

/// Two jobs have arrived, and so many were accepted and refused.
fn counts(accepted: u64, refused: u64) -> Tallies {
    Tallies {
        arrived: 2,
        accepted,
        refused,
        ended: 0,
        printed: 0,
    }
}

/// Two jobs, of which the second waits for the end of the first; two of which the second finds no room in the queue; and
/// two that are refused.
fn cases() -> [(&'static [u8], Seen); 3] {
    let again = Err(ArriveError::Misfit {
        next: 3,
        accounts: 1,
    });
    let waits = Admitted::Waits {
        job: 2,
        low: 50,
        high: 145,
    };
    let waiting = Seen {
        admitted: [Admitted::Accepted { job: 1 }, waits],
        taken: (1, false),
        next: waits,
        running: 1,
        standings: [
            Standing::NotArrived,
            Standing::Running,
            Standing::Undecided,
            Standing::NotArrived,
        ],
        amounts: (100, 100),
        again,
        over: false,
        events: 3,
        tallies: counts(1, 0),
        board: None,
    };
    let full = Seen {
        admitted: [Admitted::Accepted { job: 1 }, Admitted::Full { job: 2 }],
        taken: (1, false),
        next: Admitted::Accepted { job: 2 },
        running: 1,
        standings: [
            Standing::NotArrived,
            Standing::Running,
            Standing::Running,
            Standing::NotArrived,
        ],
        amounts: (302, 604),
        again,
        over: false,
        events: 4,
        tallies: counts(2, 0),
        board: None,
    };
    let flawed = Admitted::Flawed {
        job: 1,
        flaw: Flaw::NumberOutOfRange,
    };
    let refused = Admitted::Refused {
        job: 2,
        reserve: 302,
        high: 301,
    };
    let neither = Seen {
        admitted: [flawed, refused],
        taken: (0, false),
        next: Admitted::NoneArrived,
        running: 0,
        standings: [
            Standing::NotArrived,
            Standing::Refused,
            Standing::Refused,
            Standing::NotArrived,
        ],
        amounts: (0, 0),
        again,
        over: true,
        events: 4,
        tallies: counts(0, 2),
        board: None,
    };
    [
        (TWO_THAT_WAIT, waiting),
        (TWO_ALIKE, full),
        (TWO_REFUSED, neither),
    ]
}

/// What is seen of the batch of these cards.
fn day_of<R: Threads + Wait + Sync>(
    rt: &R,
    alloc: Global,
    input: &[u8],
    boarded: bool,
) -> Result<Seen, Fail> {
    let batch = read(alloc, input)?;
    let book = Book::open(alloc, batch.accounts.as_slice())?;
    let jobs = jobs_of(alloc, batch)?;
    let fresh = FreshQueue::new(alloc, 1)?;
    let seen = day::<Brand, R>(rt, alloc, fresh, book, boarded, jobs.as_slice())?;
    Ok(seen)
}

#[test]
fn jobs_are_decided_in_their_order(rt: HostRuntime) -> Result<(), Fail> {
    for (input, expected) in cases() {
        let plain = day_of(&rt, rt.alloc(), input, false)?;
        see(&rt, "a day of the office", plain == expected);
        let shown = Seen {
            board: Some(expected.tallies),
            ..expected
        };
        let boarded = day_of(&rt, rt.alloc(), input, true)?;
        see(&rt, "a day with a board", boarded == shown);
    }
    Ok(())
}
