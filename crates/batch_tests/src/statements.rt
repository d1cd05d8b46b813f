//! Runs that write the statement of an account in place of the listing.

use crate::gates::TIGHT;
use crate::runs::{AMPLE, Outside, WIDE, run};
use batch_monitor::Status;
use std::alloc::{AllocError, Global};
use std::process::Abort;
use std::sync::Wait;
use std::test::Fail;
use std::thread::Threads;

const TIGHT_STATEMENT: &[u8] = b"STATEMENT ADA OPENING 300
1 LONG CARDS 4 STEPS 2004 LINES 1 CHARGE 27 BALANCE 273
2 BIG REFUSED: RESERVE 302, BALANCE 273
3 TINY CARDS 2 STEPS 2 LINES 1 CHARGE 5 BALANCE 268
CLOSING 268
";

/// The same jobs of the same account, behind another account and between its jobs.
const MIXED: &[u8] = b"%ACCOUNT BOB 999
%ACCOUNT ADA 300
%JOB LONG,ADA,LINES=1
BEGIN INTEGER I; I := 0;
WHILE I < 1000 DO I := I + 1;
WRITE(I) END.
%JOB HIS,BOB
BEGIN WRITE(1) END.
%JOB BIG,ADA
BEGIN END.
%JOB HIS,BOB,STEPS=1
BEGIN WRITE(1) END.
%JOB TINY,ADA,STEPS=100,LINES=1
BEGIN WRITE(3) END.
";

/// An account that is opened twice, and jobs of each flaw that a few cards have; those of flaw 4 alone are an account's.
const FLAWED: &[u8] = b"%ACCOUNT ADA 700
%ACCOUNT BOB 3
%ACCOUNT ADA 5
%JOB ONE,ADA
123456789012345678901234567890123456789012345678901234567890123456789012345678901
%JOB TWO,ADA
\x01
%JOB THREE,ADA,STEPS=1,STEPS=1
%JOB FOUR,ADA,LINES=501
%JOB SIX,EVE
BEGIN END.
%JOB BAD,ADA
BEGIN X := 1 END.
%JOB FOUR,BOB,STEPS=0
%JOB RUN,ADA
BEGIN WRITE(1 DIV 0) END.
%JOB RUN,BOB,STEPS=1,LINES=1
BEGIN END.
";

/// A batch, the account that the words name, and its statement.
const STATEMENTS: [(&[u8], &str, &[u8]); 8] = [
    (TIGHT, "--statement ada", TIGHT_STATEMENT),
    (MIXED, "--statement=ADA --workers 1", TIGHT_STATEMENT),
    (MIXED, "--statement EVE", b"STATEMENT EVE: NO ACCOUNT\n"),
    (
        MIXED,
        "--queue 1 --statement bob",
        b"STATEMENT BOB OPENING 999
1 HIS CARDS 2 STEPS 2 LINES 1 CHARGE 5 BALANCE 994
2 HIS CARDS 2 STEPS 1 LINES 0 CHARGE 3 BALANCE 991
CLOSING 991
",
    ),
    (
        FLAWED,
        "--statement ADA",
        b"STATEMENT ADA OPENING 700
1 FOUR REFUSED 4
2 BAD CARDS 2 STEPS 0 LINES 0 CHARGE 2 BALANCE 698
3 RUN CARDS 2 STEPS 2 LINES 0 CHARGE 3 BALANCE 695
CLOSING 695
",
    ),
    (
        FLAWED,
        "--statement bob",
        b"STATEMENT BOB OPENING 3
1 FOUR REFUSED 4
2 RUN REFUSED: RESERVE 5, BALANCE 3
CLOSING 3
",
    ),
    (b"", "--statement ADA", b"STATEMENT ADA: NO ACCOUNT\n"),
    (
        b"%ACCOUNT ADA 5\n",
        "--statement ADA",
        b"STATEMENT ADA OPENING 5\nCLOSING 5\n",
    ),
];

#[test]
fn statements(rt: HostRuntime) -> Result<(), Fail> {
    for (batch, words, statement) in &STATEMENTS {
        let ran = run(&rt, rt.alloc(), words, batch, &WIDE)?;
        ran.check(&rt, words, Status::Done, statement);
    }
    Ok(())
}

/// A batch with 501 account cards, whose last job has 2,001 cards.
fn long_batch(alloc: Global) -> Result<Vec<u8>, AllocError> {
    let mut cards = Vec::new(alloc);
    for number in 0..501u32 {
        cards.extend_from_slice(b"%ACCOUNT A")?;
        for digit in [number / 100, number / 10 % 10, number % 10] {
            cards.push(b'0'.wrapping_add(digit as u8))?;
        }
        cards.extend_from_slice(b" 5\n")?;
    }
    cards.extend_from_slice(b"%JOB FIVE,A499\n")?;
    for _ in 0..2000 {
        cards.push(b'\n')?;
    }
    Ok(cards)
}

#[test]
fn the_last_of_500_accounts_is_stated_and_no_more(rt: HostRuntime) -> Result<(), Fail> {
    let batch = long_batch(rt.alloc())?;
    let last = b"STATEMENT A499 OPENING 5\n1 FIVE REFUSED 5\nCLOSING 5\n";
    let ran = run(&rt, rt.alloc(), "--statement A499", batch.as_slice(), &WIDE)?;
    ran.check(&rt, "A499", Status::Done, last);
    let ran = run(&rt, rt.alloc(), "--statement A500", batch.as_slice(), &WIDE)?;
    ran.check(&rt, "A500", Status::Done, b"STATEMENT A500: NO ACCOUNT\n");
    Ok(())
}

/// The first so many of these bytes.
fn first(bytes: &[u8], count: usize) -> &[u8] {
    bytes.get(..count).unwrap_or(bytes)
}

fn check_stopped<R: Threads + Wait + Sync + Abort>(
    rt: &R,
    alloc: Global,
    outside: &Outside,
    status: Status,
    count: usize,
) -> Result<(), AllocError> {
    let ran = run(rt, alloc, "--statement ADA --workers 1", MIXED, outside)?;
    ran.check(rt, "stopped", status, first(TIGHT_STATEMENT, count));
    Ok(())
}

#[test]
fn a_statement_is_written_behind_the_last_job(rt: HostRuntime) -> Result<(), Fail> {
    for stop in [0, 1, 60, 185] {
        let outside = Outside {
            sink_stop: stop,
            ..AMPLE
        };
        check_stopped(&rt, rt.alloc(), &outside, Status::WriteFault, stop as usize)?;
        let outside = Outside {
            source_stop: Some(u64::from(stop)),
            ..AMPLE
        };
        check_stopped(&rt, rt.alloc(), &outside, Status::ReadFault, 0)?;
    }
    check_stopped(&rt, rt.alloc(), &AMPLE, Status::Done, TIGHT_STATEMENT.len())?;
    Ok(())
}
