//! Batches with their listings, and what else the top call writes.

use crate::cases::see;
use crate::gates::{TIGHT, TIGHT_LISTING};
use crate::runs::{AMPLE, Outside, WIDE, run};
use batch_monitor::Status;
use std::alloc::{AllocError, Global};
use std::process::Abort;
use std::sync::Wait;
use std::test::Fail;
use std::thread::Threads;

/// Batches, each with its name before it and its listing behind it.
const BATCHES: &str = "\
nothing
=>
ALGOL W BATCH

CLOSING BALANCES
STRAY CARDS 0
####
one sum
%ACCOUNT ADA 500
%JOB SUM,ADA
BEGIN WRITE(2 + 2) END.
%EOJ
=>
ALGOL W BATCH

JOB 1 SUM ADA
   1        1  BEGIN WRITE(2 + 2) END.
OUTPUT
             4
ENDED NORMALLY
CARDS 2 STEPS 2 LINES 1 CHARGE 5

CLOSING BALANCES
ADA OPENING 500 CHARGES 5 CLOSING 495
STRAY CARDS 0
####
one sum, with no end card and no last line feed
%ACCOUNT ADA 500
%JOB SUM,ADA
BEGIN WRITE(2 + 2) END.=>
ALGOL W BATCH

JOB 1 SUM ADA
   1        1  BEGIN WRITE(2 + 2) END.
OUTPUT
             4
ENDED NORMALLY
CARDS 2 STEPS 2 LINES 1 CHARGE 5

CLOSING BALANCES
ADA OPENING 500 CHARGES 5 CLOSING 495
STRAY CARDS 0
####
four jobs
%ACCOUNT ADA 500
%JOB SUM,ADA
BEGIN WRITE(2 + 2) END.
%JOB NONE,ADA
BEGIN END.
%JOB WHO,EVE
BEGIN WRITE(1) END.
%JOB BAD,ADA,STEPS=9
=>
ALGOL W BATCH

JOB 1 SUM ADA
   1        1  BEGIN WRITE(2 + 2) END.
OUTPUT
             4
ENDED NORMALLY
CARDS 2 STEPS 2 LINES 1 CHARGE 5

JOB 2 NONE ADA
   1        1  BEGIN END.
OUTPUT
ENDED NORMALLY
CARDS 2 STEPS 1 LINES 0 CHARGE 3

JOB 3 WHO EVE
REFUSED 6: ACCOUNT UNKNOWN

JOB 4 BAD ADA
DIAGNOSTIC 20 AT 1,1: NOT EXPECTED HERE
CARDS 1 STEPS 0 LINES 0 CHARGE 1

CLOSING BALANCES
ADA OPENING 500 CHARGES 9 CLOSING 491
STRAY CARDS 0
####
a tie: ADA's balance is the reserve of her job, BOB's is one less
%ACCOUNT ADA 302
%ACCOUNT BOB 301
%JOB A,ADA
BEGIN WRITE(1) END.
%JOB B,BOB
BEGIN WRITE(1) END.
=>
ALGOL W BATCH

JOB 1 A ADA
   1        1  BEGIN WRITE(1) END.
OUTPUT
             1
ENDED NORMALLY
CARDS 2 STEPS 2 LINES 1 CHARGE 5

JOB 2 B BOB
REFUSED: RESERVE 302, BALANCE 301

CLOSING BALANCES
ADA OPENING 302 CHARGES 5 CLOSING 297
BOB OPENING 301 CHARGES 0 CLOSING 301
STRAY CARDS 0
####
a tie of empty blocks
%ACCOUNT ADA 302
%ACCOUNT BOB 301
%JOB A,ADA
BEGIN END.
%JOB B,BOB
BEGIN END.
=>
ALGOL W BATCH

JOB 1 A ADA
   1        1  BEGIN END.
OUTPUT
ENDED NORMALLY
CARDS 2 STEPS 1 LINES 0 CHARGE 3

JOB 2 B BOB
REFUSED: RESERVE 302, BALANCE 301

CLOSING BALANCES
ADA OPENING 302 CHARGES 3 CLOSING 299
BOB OPENING 301 CHARGES 0 CLOSING 301
STRAY CARDS 0
####
the second of two jobs waits for the end of the first
%ACCOUNT ADA 150
%JOB ONE,ADA,STEPS=500,LINES=45
BEGIN
WRITE(\"A\");
WRITE(\"B\")
END.
%JOB TWO,ADA,STEPS=600,LINES=55
BEGIN
WRITE(1)
END.
=>
ALGOL W BATCH

JOB 1 ONE ADA
   1        1  BEGIN
   2        1  WRITE(\"A\");
   3        1  WRITE(\"B\")
   4           END.
OUTPUT
A
B
ENDED NORMALLY
CARDS 5 STEPS 3 LINES 2 CHARGE 10

JOB 2 TWO ADA
   1        1  BEGIN
   2        1  WRITE(1)
   3           END.
OUTPUT
             1
ENDED NORMALLY
CARDS 4 STEPS 2 LINES 1 CHARGE 7

CLOSING BALANCES
ADA OPENING 150 CHARGES 17 CLOSING 133
STRAY CARDS 0
####
small letters, settings in either order with blanks round them, and a balance that just covers the reserve
%account\tada\t17
%job  x , ada , lines = 7 , steps = 0020
BEGIN WRITE(1) END.\r
=>
ALGOL W BATCH

JOB 1 X ADA
   1        1  BEGIN WRITE(1) END.
OUTPUT
             1
ENDED NORMALLY
CARDS 2 STEPS 2 LINES 1 CHARGE 5

CLOSING BALANCES
ADA OPENING 17 CHARGES 5 CLOSING 12
STRAY CARDS 0
####
a number out of range, a card of 81 bytes, an account that isn't open, and a job that runs
%ACCOUNT ADA 1000
%JOB A,ADA,STEPS=0
%JOB B,ADA
BEGIN                                                                           ;
%JOB C,EVE
%JOB D,ADA
BEGIN WRITE(3) END.
=>
ALGOL W BATCH

JOB 1 A ADA
REFUSED 4: NUMBER OUT OF RANGE

JOB 2 ? ?
REFUSED 1: CARD OVER 80 BYTES

JOB 3 C EVE
REFUSED 6: ACCOUNT UNKNOWN

JOB 4 D ADA
   1        1  BEGIN WRITE(3) END.
OUTPUT
             3
ENDED NORMALLY
CARDS 2 STEPS 2 LINES 1 CHARGE 5

CLOSING BALANCES
ADA OPENING 1000 CHARGES 5 CLOSING 995
STRAY CARDS 0
####
the same, where the job that runs is an empty block
%ACCOUNT ADA 1000
%JOB A,ADA,STEPS=0
%JOB B,ADA
BEGIN                                                                           ;
%JOB C,EVE
%JOB D,ADA
BEGIN END.
=>
ALGOL W BATCH

JOB 1 A ADA
REFUSED 4: NUMBER OUT OF RANGE

JOB 2 ? ?
REFUSED 1: CARD OVER 80 BYTES

JOB 3 C EVE
REFUSED 6: ACCOUNT UNKNOWN

JOB 4 D ADA
   1        1  BEGIN END.
OUTPUT
ENDED NORMALLY
CARDS 2 STEPS 1 LINES 0 CHARGE 3

CLOSING BALANCES
ADA OPENING 1000 CHARGES 3 CLOSING 997
STRAY CARDS 0
####
a flaw of the job card comes before an unknown account
%JOB A,EVE,STEPS=10000001\n=>
ALGOL W BATCH

JOB 1 A EVE
REFUSED 4: NUMBER OUT OF RANGE

CLOSING BALANCES
STRAY CARDS 0
####
stray cards, a byte that isn't allowed, a job card that isn't of the form, data, sums in and out of range, a single step
A NOTE
%ACCOUNT ADA 0500

%ACCOUNT ADA 7
%ACCOUNT EVE 1000000000
%JOB BYTE,ADA
BEGIN WRITE(1) END.\x7f
%EOJ
LEFT OVER
%EOJ

%JOB FORM;ADA
%JOB DATA,ADA,LINES=1
BEGIN WRITE(1) END.
%DATA
1
%DATA
%JOB RANGE,ADA
BEGIN WRITE(2147483647 + 1) END.
%JOB ONE,ADA,STEPS=1
BEGIN WRITE(1) END.
%JOB MOST,ADA
BEGIN WRITE(2147483646 + 0000000001) END.   
=>
ALGOL W BATCH

JOB 1 ? ?
REFUSED 2: BYTE NOT ALLOWED

JOB 2 ? ?
REFUSED 3: JOB CARD ILL FORMED

JOB 3 DATA ADA
   1        1  BEGIN WRITE(1) END.
OUTPUT
             1
ENDED NORMALLY
CARDS 5 STEPS 2 LINES 1 CHARGE 8

JOB 4 RANGE ADA
   1        1  BEGIN WRITE(2147483647 + 1) END.
OUTPUT
FAULT 1 AT 1,7: INTEGER OVERFLOW
POST-MORTEM
  BLOCK 1,1
CARDS 2 STEPS 2 LINES 0 CHARGE 3

JOB 5 ONE ADA
   1        1  BEGIN WRITE(1) END.
OUTPUT
LIMIT 1 AT 1,7: STEPS
POST-MORTEM
  BLOCK 1,1
CARDS 2 STEPS 1 LINES 0 CHARGE 3

JOB 6 MOST ADA
   1        1  BEGIN WRITE(2147483646 + 0000000001) END.
OUTPUT
    2147483647
ENDED NORMALLY
CARDS 2 STEPS 2 LINES 1 CHARGE 5

CLOSING BALANCES
ADA OPENING 500 CHARGES 19 CLOSING 481
STRAY CARDS 5
";

/// Sees that a batch has its listing, with so many bytes in a piece.
fn check_listing<R: Threads + Wait + Sync + Abort>(
    rt: &R,
    alloc: Global,
    name: &str,
    batch: &str,
    listing: &str,
    piece: usize,
) -> Result<(), AllocError> {
    let outside = Outside { piece, ..AMPLE };
    let run = run(rt, alloc, "", batch.as_bytes(), &outside)?;
    run.check(rt, name, Status::Done, listing.as_bytes());
    Ok(())
}

#[test]
fn a_batch_has_its_listing(rt: HostRuntime) -> Result<(), Fail> {
    for row in BATCHES.split("####\n") {
        let Some((name, row)) = row.split_once('\n') else {
            return Err(Fail::from("a row has a name"));
        };
        let Some((batch, listing)) = row.split_once("=>\n") else {
            return Err(Fail::from("a row has a listing"));
        };
        for piece in [1, 2, 3, 7, 4096] {
            check_listing(&rt, rt.alloc(), name, batch, listing, piece)?;
        }
    }
    Ok(())
}

/// Lists of words that say nothing, and those with which no byte of a listing is another.
const WRONG_WORDS: &str =
    "--help;--workers 0;--queue 3 --queue 3;--make 7;--jobs 1;--board --make 7 --jobs 1";

const STAFFS: &str = "--workers 1;--workers 4 --queue 1;--workers 16 --queue 64";

#[test]
fn words_are_refused(rt: HostRuntime) -> Result<(), Fail> {
    for words in WRONG_WORDS.split(';') {
        let run = run(&rt, rt.alloc(), words, TIGHT, &AMPLE)?;
        run.check(&rt, words, Status::BadWords, b"");
    }
    Ok(())
}

/// The same bytes, however many workers run the jobs, and however many may wait.
#[test]
fn no_byte_depends_on_the_workers(rt: HostRuntime) -> Result<(), Fail> {
    for words in STAFFS.split(';') {
        let run = run(&rt, rt.alloc(), words, TIGHT, &WIDE)?;
        run.check(&rt, words, Status::Done, TIGHT_LISTING);
    }
    Ok(())
}

/// The line of a board behind the listing of three jobs, of which one is refused.
const BOARD: &[u8] = b"BOARD ARRIVED 3 ACCEPTED 2 REFUSED 1 ENDED 2 PRINTED 3\n";

/// Lists of words with which that line stands there.
const BOARDS: &str = "--workers 4 --queue 1 --board;--board --workers 1";

#[test]
fn a_board_has_its_line_behind_the_listing(rt: HostRuntime) -> Result<(), Fail> {
    let mut shown = Vec::from_slice(rt.alloc(), TIGHT_LISTING)?;
    shown.extend_from_slice(BOARD)?;
    for words in BOARDS.split(';') {
        let run = run(&rt, rt.alloc(), words, TIGHT, &WIDE)?;
        run.check(&rt, words, Status::Done, shown.as_slice());
    }
    Ok(())
}

/// Words that make a batch, and the summary of its listing, which no other words change.
const SUMMARIES: &str = "\
--make 7 --jobs=1
=>
MADE 7 JOBS 1
NORMAL 0
FAULT 0
LIMIT 0
DIAGNOSED 1
REFUSED 0
CHARGES 2
LISTING BYTES 334
####
--make 7 --jobs 2
=>
MADE 7 JOBS 2
NORMAL 1
FAULT 0
LIMIT 0
DIAGNOSED 1
REFUSED 0
CHARGES 9
LISTING BYTES 568
####
--make 7 --jobs 200 --workers 16 --queue 1
--make 7 --jobs 200 --workers 1 --queue 64
=>
MADE 7 JOBS 200
NORMAL 132
FAULT 34
LIMIT 0
DIAGNOSED 34
REFUSED 0
CHARGES 1219
LISTING BYTES 45058
####
--make 1971 --jobs 300 --workers 1 --queue 1
--make 1971 --jobs 300 --workers 16 --queue 1
--make 1971 --jobs 300 --workers 1 --queue 64
--make 1971 --jobs 300 --workers 16 --queue 64
=>
MADE 1971 JOBS 300
NORMAL 196
FAULT 47
LIMIT 0
DIAGNOSED 57
REFUSED 0
CHARGES 1782
LISTING BYTES 66646
";

/// The source isn't read: it would fail.
const UNREAD: Outside = Outside {
    failing_read: Some(1),
    ..WIDE
};

#[test]
fn a_made_batch_has_its_summary(rt: HostRuntime) -> Result<(), Fail> {
    for row in SUMMARIES.split("####\n") {
        let Some((lists, summary)) = row.split_once("=>\n") else {
            return Err(Fail::from("a row has a summary"));
        };
        for words in lists.lines() {
            let run = run(&rt, rt.alloc(), words, TIGHT, &UNREAD)?;
            run.check(&rt, words, Status::Done, summary.as_bytes());
        }
    }
    Ok(())
}

#[test]
fn the_most_jobs_are_read_and_one_more_are_too_many(rt: HostRuntime) -> Result<(), Fail> {
    let alloc = rt.alloc();
    let mut heads = "%JOB A,ADA\n".repeat(alloc, 2_000)?;
    let most = run(&rt, alloc, "--workers 1", heads.as_bytes(), &WIDE)?;
    see(&rt, "the most jobs", most.status == Status::Done);
    heads.push_str("%job")?;
    let more = run(&rt, alloc, "--workers 1", heads.as_bytes(), &WIDE)?;
    see(&rt, "one more", more.status == Status::TooLarge);
    let prefix = most.written.starts_with(more.written.as_slice());
    see(&rt, "what is written of one more", prefix);
    Ok(())
}
