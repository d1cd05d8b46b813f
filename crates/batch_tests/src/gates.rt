//! Gates that the workers pass, and what they show of the workers.
ghost use Rattle.std.specs.Prelude.{◌≤◌, length};

use crate::cases::see;
use crate::runs::{WIDE, no_accounts, no_sink, run_past, words_of};
use batch_io::{Gate, MemSink, ReadFailed, Source};
use batch_monitor::{Status, run_monitor};
use std::alloc::{AllocError, Global};
use std::process::Abort;
use std::sync::atomic::{AtomicBool, AtomicU32, Ordering};
use std::test::Fail;
use std::thread::yield_now;

/// While the long job runs, it is certain that the big one will not be covered, but not by which balance.
pub(crate) const TIGHT: &[u8] = b"%ACCOUNT ADA 300
%JOB LONG,ADA,LINES=1
BEGIN INTEGER I; I := 0;
WHILE I < 1000 DO I := I + 1;
WRITE(I) END.
%JOB BIG,ADA
BEGIN END.
%JOB TINY,ADA,STEPS=100,LINES=1
BEGIN WRITE(3) END.
";

pub(crate) const TIGHT_LISTING: &[u8] = b"ALGOL W BATCH

JOB 1 LONG ADA
   1        1  BEGIN INTEGER I; I := 0;
   2        1  WHILE I < 1000 DO I := I + 1;
   3        1  WRITE(I) END.
OUTPUT
          1000
ENDED NORMALLY
CARDS 4 STEPS 2004 LINES 1 CHARGE 27

JOB 2 BIG ADA
REFUSED: RESERVE 302, BALANCE 273

JOB 3 TINY ADA
   1        1  BEGIN WRITE(3) END.
OUTPUT
             3
ENDED NORMALLY
CARDS 2 STEPS 2 LINES 1 CHARGE 5

CLOSING BALANCES
ADA OPENING 300 CHARGES 32 CLOSING 268
STRAY CARDS 0
";

/// A gate that notes when a worker has ended a job, and lets another job in only then. It gives up after a while.
#[derive(Drop)]
struct Watching {
    job: u32,
    waiting: u32,
    ended: AtomicBool,
    gave_up: AtomicBool,
    audited: AtomicBool,
}

impl Watching {
    /// Notes when this job has ended; the other one waits for it.
    fn new(job: u32, waiting: u32) -> Watching {
        Watching {
            job,
            waiting,
            ended: AtomicBool::new(false),
            gave_up: AtomicBool::new(false),
            audited: AtomicBool::new(false),
        }
    }
}

impl Gate for Watching {
    fn enter(&self, job: u32) {
        if job != self.waiting {
            return;
        }
        for _ in 0..5_000_000_u32 {
            if self.ended.load(Ordering::SeqCst) {
                return;
            }
            yield_now();
        }
        self.gave_up.store(true, Ordering::SeqCst);
    }

    fn leave(&self, job: u32) {
        if job == self.job {
            self.ended.store(true, Ordering::SeqCst);
        }
    }

    fn audited(&self, _job: u32) {
        self.audited.store(true, Ordering::SeqCst);
    }
}

/// Two jobs that may run side by side.
const TWO: &[u8] = b"%ACCOUNT ADA 1000
%JOB A,ADA
BEGIN WRITE(1) END.
%JOB B,ADA
BEGIN WRITE(2) END.
";

/// The first job is let in when the second has ended.
#[test]
fn two_jobs_are_under_way_at_once(rt: HostRuntime) -> Result<(), Fail> {
    let gate = Watching::new(2, 1);
    let run = run_past(&rt, rt.alloc(), "--workers 2", TWO, &WIDE, &gate)?;
    see(&rt, "the end", run.status == Status::Done);
    see(&rt, "both at once", !gate.gave_up.load(Ordering::SeqCst));
    see(&rt, "no audit", !gate.audited.load(Ordering::SeqCst));
    Ok(())
}

/// A gate that counts how often each job passes.
#[derive(Drop)]
struct Counting {
    entered: Vec<AtomicU32>,
    left: Vec<AtomicU32>,
    audited: AtomicU32,
}

/// A count for each number up to the most.
fn counts(alloc: Global, most: u32) -> Result<Vec<AtomicU32>, AllocError> {
    let mut counts = Vec::new(alloc);
    for _ in 0..=most {
        counts.push(AtomicU32::new(0))?;
    }
    Ok(counts)
}

/// Adds one to the count of a job.
fn count(counts: &[AtomicU32], job: u32) {
    if let Some(count) = counts.get(job as usize) {
        count.fetch_add(1, Ordering::SeqCst);
    }
}

impl Gate for Counting {
    fn enter(&self, job: u32) {
        count(self.entered.as_slice(), job);
    }

    fn leave(&self, job: u32) {
        count(self.left.as_slice(), job);
    }

    fn audited(&self, _job: u32) {
        self.audited.fetch_add(1, Ordering::SeqCst);
    }
}

/// Sees that each job has passed just once.
fn check_counts(rt: &impl Abort, counts: &[AtomicU32], words: &str) {
    for (job, count) in counts.iter().enumerate() {
        let due = u32::from(job > 0);
        see(rt, words, count.load(Ordering::SeqCst) == due);
    }
}

/// None of them is refused.
const SUMMARY_OF_200: &[u8] = b"MADE 7 JOBS 200
NORMAL 132
FAULT 34
LIMIT 0
DIAGNOSED 34
REFUSED 0
CHARGES 1219
LISTING BYTES 45058
";

/// What a made batch of 200 jobs passes.
fn counted(alloc: Global) -> Result<Counting, AllocError> {
    Ok(Counting {
        entered: counts(alloc, 200)?,
        left: counts(alloc, 200)?,
        audited: AtomicU32::new(0),
    })
}

#[test]
fn each_job_is_run_by_a_worker(rt: HostRuntime) -> Result<(), Fail> {
    for words in [
        "--make 7 --jobs 200 --workers 1",
        "--make 7 --jobs 200 --workers 16",
    ] {
        let gate = counted(rt.alloc())?;
        let run = run_past(&rt, rt.alloc(), words, b"", &WIDE, &gate)?;
        run.check(&rt, words, Status::Done, SUMMARY_OF_200);
        check_counts(&rt, gate.entered.as_slice(), words);
        check_counts(&rt, gate.left.as_slice(), words);
        see(&rt, words, gate.audited.load(Ordering::SeqCst) == 0);
    }
    Ok(())
}

/// One job, which its end card ends.
const ONE: &[u8] = b"%ACCOUNT ADA 1000
%JOB A,ADA
BEGIN WRITE(1) END.
%EOJ
";

/// A source of one job, then of single line feeds until a worker has ended it. It gives up after a while.
#[derive(Drop)]
struct LineFeeds<'g> {
    gate: &'g Watching,
    begun: bool,
    /// How many line feeds it may still hand out.
    left: u32,
}

impl<'g> LineFeeds<'g> {
    /// The next bytes.
    fn next(&mut self) -> &'static [u8] {
        if !self.begun {
            self.begun = true;
            return ONE;
        }
        if self.left == 0 || self.gate.ended.load(Ordering::SeqCst) {
            return b"";
        }
        self.left -= 1;
        yield_now();
        b"\n"
    }
}

/// Puts bytes into the front of a buffer, as many as it has room for, and says how many.
fn put(buf: &mut [u8], bytes: &[u8]) -> usize
    ensures { result ≤ length buf.new }
{
    let count = bytes.len().min(buf.len());
    buf[..count].copy_from_slice(&bytes[..count]);
    count
}

impl<'g> Source for LineFeeds<'g> {
    ghost use Rattle.std.specs.Prelude.{None};

    ghost left = { λ _. None };

    ghost faults = { λ _. 0 };

    fn read(&mut self, buf: &mut [u8]) -> Result<usize, ReadFailed> {
        let bytes = self.next();
        Ok(put(buf, bytes))
    }
}

/// The jobs of a batch run while it is read.
#[test]
fn reads_while_running(rt: HostRuntime) -> Result<(), Fail> {
    let gate = Watching::new(1, 0);
    let mut source = LineFeeds {
        gate: &gate,
        begun: false,
        left: 4_000_000,
    };
    let mut sink = MemSink::new(rt.alloc(), 65_536, Vec::new(rt.alloc()), 10_000)?;
    let words = words_of(rt.alloc(), "--workers 2")?;
    let words = words.as_slice();
    let mut accounts = no_accounts(rt.alloc());
    let mut closing = no_sink(rt.alloc())?;
    let status = run_monitor(
        &rt,
        rt.alloc(),
        words,
        &mut source,
        &mut sink,
        &mut accounts,
        &mut closing,
        &gate,
    );
    see(&rt, "the end", status == Status::Done);
    see(&rt, "a worker ends the job in time", source.left > 0);
    let whole = sink.bytes().ends_with(b"STRAY CARDS 0\n");
    see(&rt, "the last line", whole);
    Ok(())
}
