//! Runs whose opening balances come from an accounts file, and whose closing ones go to one.

use crate::cases::see;
use crate::runs::words_of;
use batch_io::{MemSink, MemSource, OpenGate, ReadFailed, Source};
use batch_monitor::{Status, run_monitor};
use std::alloc::{AllocError, Global};
use std::process::Abort;
use std::sync::Wait;
use std::test::Fail;
use std::thread::Threads;

/// A batch with an account card, which is a stray card where the accounts are given.
const SUM: &[u8] = b"%ACCOUNT ADA 500
%JOB SUM,ADA
BEGIN WRITE(2 + 2) END.
%EOJ
";

/// Nights, each with its opening text, its listing and its closing text: each night's closing text is the next one's opening.
const NIGHTS: [(&[u8], &[u8], &[u8]); 3] = [
    (
        b"[accounts]\nADA = 500\nBOB = 20\n",
        b"ALGOL W BATCH

JOB 1 SUM ADA
   1        1  BEGIN WRITE(2 + 2) END.
OUTPUT
             4
ENDED NORMALLY
CARDS 2 STEPS 2 LINES 1 CHARGE 5

CLOSING BALANCES
ADA OPENING 500 CHARGES 5 CLOSING 495
BOB OPENING 20 CHARGES 0 CLOSING 20
STRAY CARDS 1
",
        b"[accounts]\nADA = 495\nBOB = 20\n",
    ),
    (
        b"[accounts]\nADA = 495\nBOB = 20\n",
        b"ALGOL W BATCH

JOB 1 SUM ADA
   1        1  BEGIN WRITE(2 + 2) END.
OUTPUT
             4
ENDED NORMALLY
CARDS 2 STEPS 2 LINES 1 CHARGE 5

CLOSING BALANCES
ADA OPENING 495 CHARGES 5 CLOSING 490
BOB OPENING 20 CHARGES 0 CLOSING 20
STRAY CARDS 1
",
        b"[accounts]\nADA = 490\nBOB = 20\n",
    ),
    (
        b"[accounts]",
        b"ALGOL W BATCH

JOB 1 SUM ADA
REFUSED 6: ACCOUNT UNKNOWN

CLOSING BALANCES
STRAY CARDS 1
",
        b"[accounts]\n",
    ),
];

/// Texts that state no accounts.
const BAD: [&[u8]; 6] = [
    b"",
    b"ADA = 5\n",
    b"[accounts]\nada = 5\n",
    b"[accounts]\nADA = -1\n",
    b"[accounts]\nADA = 5\nADA = 5\n",
    b"[accounts]\n[more]\n",
];

/// A source of a batch that counts how often it is read.
#[derive(Drop)]
struct Watched {
    bytes: MemSource,
    reads: u32,
}

impl Source for Watched {
    ghost use Rattle.std.specs.Prelude.{None};

    ghost left = { λ _. None };

    ghost faults = { λ s. s.bytes.pace.faults };

    fn read(&mut self, buf: &mut [u8]) -> Result<usize, ReadFailed> {
        self.reads = self.reads.saturating_add(1);
        self.bytes.read(buf)
    }
}

/// How a run ended, what it wrote, and how often it read of the batch.
#[derive(Drop)]
struct Ran {
    status: Status,
    written: Vec<u8>,
    closed: Vec<u8>,
    reads: u32,
}

/// Runs the batch with an accounts file of this text, whose source stops behind so many bytes where it does, and whose sink
/// takes so many.
fn run<R: Threads + Wait + Sync>(
    rt: &R,
    alloc: Global,
    text: &[u8],
    source_stop: Option<u64>,
    sink_stop: u32,
) -> Result<Ran, AllocError> {
    let words = words_of(alloc, "--accounts --workers 1")?;
    let mut source = Watched {
        bytes: MemSource::new(Vec::from_slice(alloc, SUM)?, 7, Vec::new(alloc), None),
        reads: 0,
    };
    let mut sink = MemSink::new(alloc, 7, Vec::new(alloc), 10_000)?;
    let text = Vec::from_slice(alloc, text)?;
    let mut accounts = MemSource::new(text, 7, Vec::new(alloc), source_stop);
    let mut closing = MemSink::new(alloc, 7, Vec::new(alloc), sink_stop)?;
    let status = run_monitor(
        rt,
        alloc,
        words.as_slice(),
        &mut source,
        &mut sink,
        &mut accounts,
        &mut closing,
        &OpenGate,
    );
    Ok(Ran {
        status,
        written: Vec::from_slice(alloc, sink.bytes())?,
        closed: Vec::from_slice(alloc, closing.bytes())?,
        reads: source.reads,
    })
}

impl Ran {
    /// Sees that the run ended with this status, and wrote this listing and this text.
    fn check(&self, rt: &impl Abort, status: Status, written: &[u8], closed: &[u8]) {
        assert_eq!(rt; self.status, status);
        assert_eq!(rt; self.written.as_slice(), written);
        assert_eq!(rt; self.closed.as_slice(), closed);
    }

    /// Sees that the run ended with this status, and that nothing was written, and of the batch nothing read.
    fn check_nothing(&self, rt: &impl Abort, status: Status) {
        self.check(rt, status, b"", b"");
        see(rt, "the batch is unread", self.reads == 0);
    }
}

#[test]
fn nights_with_an_accounts_file(rt: HostRuntime) -> Result<(), Fail> {
    for (opening, listing, closing) in NIGHTS {
        let run = run(&rt, rt.alloc(), opening, None, 10_000)?;
        run.check(&rt, Status::Done, listing, closing);
    }
    Ok(())
}

#[test]
fn texts_that_state_no_accounts(rt: HostRuntime) -> Result<(), Fail> {
    for text in BAD {
        let run = run(&rt, rt.alloc(), text, None, 10_000)?;
        run.check_nothing(&rt, Status::BadAccounts);
    }
    Ok(())
}

/// The source of the accounts fails behind each of its bytes in turn.
#[test]
fn accounts_that_cannot_be_read(rt: HostRuntime) -> Result<(), Fail> {
    let (opening, _, _) = NIGHTS[0];
    for stop in 0..=opening.len() {
        let run = run(&rt, rt.alloc(), opening, Some(stop as u64), 10_000)?;
        run.check_nothing(&rt, Status::ReadFault);
    }
    Ok(())
}

/// The sink of the closing balances fails behind each of their bytes in turn.
#[test]
fn balances_that_cannot_be_written(rt: HostRuntime) -> Result<(), Fail> {
    let (opening, listing, closing) = NIGHTS[0];
    for stop in 0..closing.len() {
        let run = run(&rt, rt.alloc(), opening, None, stop as u32)?;
        run.check(&rt, Status::WriteFault, listing, &closing[..stop]);
    }
    Ok(())
}
