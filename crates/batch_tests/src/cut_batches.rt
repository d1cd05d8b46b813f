//! A batch with one job, cut off behind each of its bytes.

use crate::runs::{AMPLE, run};
use batch_monitor::Status;
use std::alloc::{AllocError, Global};
use std::test::Fail;

/// A job that reads the marks of a class, and prints them in a list with their mean.
const CLASS: &str = "\
%ACCOUNT ADA 1000
%JOB X,ADA
BEGIN COMMENT CLASS LIST;
RECORD PUPIL (STRING(12) NAME; INTEGER MARK; REFERENCE(PUPIL) NEXT);
REFERENCE(PUPIL) LIST, P; INTEGER M, N, S; STRING(12) W;
LIST := NULL; N := S := 0; READ(M);
WHILE M >= 0 DO
BEGIN READON(W); LIST := PUPIL(W, M, LIST);
N := N + 1; S := S + M; READ(M) END;
P := LIST;
WHILE P ~= NULL DO
BEGIN WRITE(NAME(P), MARK(P)); P := NEXT(P) END;
WRITE(\"MEAN\", S DIV N)
END.
%DATA
70 \"ADA\"
55 \"GRACE\"
-1
";

/// What becomes of the batch cut off behind so many bytes, from the row before on. First the counts beside the cards of its
/// deck, and then the lines behind them, with marks between them, up to what is charged. Where no card is listed a line stands
/// in place of the counts, and the row has all lines behind the heading.
const CUT: &str = "\
0/-/CLOSING BALANCES@STRAY CARDS 0@
13/-/CLOSING BALANCES@STRAY CARDS 1@
14/-/CLOSING BALANCES@ADA OPENING 1 CHARGES 0 CLOSING 1@STRAY CARDS 0@
15/-/CLOSING BALANCES@ADA OPENING 10 CHARGES 0 CLOSING 10@STRAY CARDS 0@
16/-/CLOSING BALANCES@ADA OPENING 100 CHARGES 0 CLOSING 100@STRAY CARDS 0@
18/-/CLOSING BALANCES@ADA OPENING 1000 CHARGES 0 CLOSING 1000@STRAY CARDS 0@
21/-/CLOSING BALANCES@ADA OPENING 1000 CHARGES 0 CLOSING 1000@STRAY CARDS 1@
25/-/JOB 1 ? ?@REFUSED 3: JOB CARD ILL FORMED@@CLOSING BALANCES@ADA OPENING 1000 CHARGES 0 CLOSING 1000@STRAY CARDS 0@
26/-/JOB 1 X A@REFUSED 6: ACCOUNT UNKNOWN@@CLOSING BALANCES@ADA OPENING 1000 CHARGES 0 CLOSING 1000@STRAY CARDS 0@
27/-/JOB 1 X AD@REFUSED 6: ACCOUNT UNKNOWN@@CLOSING BALANCES@ADA OPENING 1000 CHARGES 0 CLOSING 1000@STRAY CARDS 0@
29//DIAGNOSTIC 20 AT 1,1: NOT EXPECTED HERE@CARDS 1 STEPS 0 LINES 0 CHARGE 1
33//DIAGNOSTIC 20 AT 1,1: NOT EXPECTED HERE@CARDS 2 STEPS 0 LINES 0 CHARGE 2
41//DIAGNOSTIC 20 AT 2,1: NOT EXPECTED HERE@CARDS 2 STEPS 0 LINES 0 CHARGE 2
53//DIAGNOSTIC 16 AT 1,7: COMMENT NOT CLOSED@CARDS 2 STEPS 0 LINES 0 CHARGE 2
55//DIAGNOSTIC 20 AT 2,1: NOT EXPECTED HERE@CARDS 2 STEPS 0 LINES 0 CHARGE 2
69//DIAGNOSTIC 20 AT 3,1: NOT EXPECTED HERE@CARDS 3 STEPS 0 LINES 0 CHARGE 3
74//DIAGNOSTIC 20 AT 2,15: NOT EXPECTED HERE@CARDS 3 STEPS 0 LINES 0 CHARGE 3
86//DIAGNOSTIC 20 AT 3,1: NOT EXPECTED HERE@CARDS 3 STEPS 0 LINES 0 CHARGE 3
92//DIAGNOSTIC 20 AT 2,32: NOT EXPECTED HERE@CARDS 3 STEPS 0 LINES 0 CHARGE 3
100//DIAGNOSTIC 20 AT 3,1: NOT EXPECTED HERE@CARDS 3 STEPS 0 LINES 0 CHARGE 3
108//DIAGNOSTIC 20 AT 2,46: NOT EXPECTED HERE@CARDS 3 STEPS 0 LINES 0 CHARGE 3
124//DIAGNOSTIC 20 AT 3,1: NOT EXPECTED HERE@CARDS 3 STEPS 0 LINES 0 CHARGE 3
181//DIAGNOSTIC 20 AT 4,1: NOT EXPECTED HERE@CARDS 4 STEPS 0 LINES 0 CHARGE 4
202//DIAGNOSTIC 20 AT 5,1: NOT EXPECTED HERE@CARDS 5 STEPS 0 LINES 0 CHARGE 5
203//DIAGNOSTIC 20 AT 4,22: NOT EXPECTED HERE@CARDS 5 STEPS 0 LINES 0 CHARGE 5
217//DIAGNOSTIC 20 AT 5,1: NOT EXPECTED HERE@CARDS 5 STEPS 0 LINES 0 CHARGE 5
230//DIAGNOSTIC 20 AT 6,1: NOT EXPECTED HERE@CARDS 6 STEPS 0 LINES 0 CHARGE 6
231//DIAGNOSTIC 20 AT 5,14: NOT EXPECTED HERE@CARDS 6 STEPS 0 LINES 0 CHARGE 6
233//DIAGNOSTIC 20 AT 6,1: NOT EXPECTED HERE@CARDS 6 STEPS 0 LINES 0 CHARGE 6
277//DIAGNOSTIC 20 AT 7,1: NOT EXPECTED HERE@CARDS 7 STEPS 0 LINES 0 CHARGE 7
309//DIAGNOSTIC 20 AT 8,1: NOT EXPECTED HERE@CARDS 8 STEPS 0 LINES 0 CHARGE 8
311//DIAGNOSTIC 20 AT 7,33: NOT EXPECTED HERE@CARDS 8 STEPS 0 LINES 0 CHARGE 8
314//DIAGNOSTIC 20 AT 8,1: NOT EXPECTED HERE@CARDS 8 STEPS 0 LINES 0 CHARGE 8
325//DIAGNOSTIC 20 AT 9,1: NOT EXPECTED HERE@CARDS 9 STEPS 0 LINES 0 CHARGE 9
333//DIAGNOSTIC 20 AT 10,1: NOT EXPECTED HERE@CARDS 10 STEPS 0 LINES 0 CHARGE 10
334//DIAGNOSTIC 20 AT 9,9: NOT EXPECTED HERE@CARDS 10 STEPS 0 LINES 0 CHARGE 10
341//DIAGNOSTIC 20 AT 10,1: NOT EXPECTED HERE@CARDS 10 STEPS 0 LINES 0 CHARGE 10
342//DIAGNOSTIC 20 AT 9,17: NOT EXPECTED HERE@CARDS 10 STEPS 0 LINES 0 CHARGE 10
344//DIAGNOSTIC 20 AT 10,1: NOT EXPECTED HERE@CARDS 10 STEPS 0 LINES 0 CHARGE 10
388//DIAGNOSTIC 20 AT 11,1: NOT EXPECTED HERE@CARDS 11 STEPS 0 LINES 0 CHARGE 11
390//DIAGNOSTIC 20 AT 10,45: NOT EXPECTED HERE@CARDS 11 STEPS 0 LINES 0 CHARGE 11
393//DIAGNOSTIC 20 AT 11,1: NOT EXPECTED HERE@CARDS 11 STEPS 0 LINES 0 CHARGE 11
399//DIAGNOSTIC 20 AT 12,1: NOT EXPECTED HERE@CARDS 12 STEPS 0 LINES 0 CHARGE 12
404//DIAGNOSTIC 11 AT 11,7: STRING NOT CLOSED@CARDS 12 STEPS 0 LINES 0 CHARGE 12
409//DIAGNOSTIC 20 AT 12,1: NOT EXPECTED HERE@CARDS 12 STEPS 0 LINES 0 CHARGE 12
411//DIAGNOSTIC 20 AT 11,17: NOT EXPECTED HERE@CARDS 12 STEPS 0 LINES 0 CHARGE 12
416//DIAGNOSTIC 20 AT 12,1: NOT EXPECTED HERE@CARDS 12 STEPS 0 LINES 0 CHARGE 12
418//DIAGNOSTIC 20 AT 12,1: NOT EXPECTED HERE@CARDS 13 STEPS 0 LINES 0 CHARGE 13
421/1  10000000/OUTPUT@FAULT 11 AT 4,28: NO DATA LEFT@POST-MORTEM@  BLOCK 1,1@    LIST = NULL@    P = ?@    M = ?@    N = 0@    S = 0@    W = ?@CARDS 13 STEPS 4 LINES 0 CHARGE 14
425//DIAGNOSTIC 10 AT 13,1: CHARACTER NOT USED@CARDS 14 STEPS 0 LINES 0 CHARGE 14
427/1  10000000/OUTPUT@FAULT 11 AT 4,28: NO DATA LEFT@POST-MORTEM@  BLOCK 1,1@    LIST = NULL@    P = ?@    M = ?@    N = 0@    S = 0@    W = ?@CARDS 14 STEPS 4 LINES 0 CHARGE 15
428/1  11100000/OUTPUT@FAULT 11 AT 6,7: NO DATA LEFT@POST-MORTEM@  BLOCK 6,1@  BLOCK 1,1@    LIST = NULL@    P = ?@    M = 7@    N = 0@    S = 0@    W = ?@CARDS 15 STEPS 8 LINES 0 CHARGE 16
430/1  11100000/OUTPUT@FAULT 11 AT 6,7: NO DATA LEFT@POST-MORTEM@  BLOCK 6,1@  BLOCK 1,1@    LIST = NULL@    P = ?@    M = 70@    N = 0@    S = 0@    W = ?@CARDS 15 STEPS 8 LINES 0 CHARGE 16
434/1  11100000/OUTPUT@FAULT 12 AT 6,7: DATUM ILL FORMED@POST-MORTEM@  BLOCK 6,1@  BLOCK 1,1@    LIST = NULL@    P = ?@    M = 70@    N = 0@    S = 0@    W = ?@CARDS 15 STEPS 8 LINES 0 CHARGE 16
436/1  11110000/OUTPUT@FAULT 11 AT 7,25: NO DATA LEFT@POST-MORTEM@  BLOCK 6,1@  BLOCK 1,1@    LIST = PUPIL.1@    P = ?@    M = 70@    N = 1@    S = 70@    W = \"ADA         \"@CARDS 15 STEPS 12 LINES 0 CHARGE 16
437/1  11210000/OUTPUT@FAULT 11 AT 6,7: NO DATA LEFT@POST-MORTEM@  BLOCK 6,1@  BLOCK 1,1@    LIST = PUPIL.1@    P = ?@    M = 5@    N = 1@    S = 70@    W = \"ADA         \"@CARDS 16 STEPS 15 LINES 0 CHARGE 17
439/1  11210000/OUTPUT@FAULT 11 AT 6,7: NO DATA LEFT@POST-MORTEM@  BLOCK 6,1@  BLOCK 1,1@    LIST = PUPIL.1@    P = ?@    M = 55@    N = 1@    S = 70@    W = \"ADA         \"@CARDS 16 STEPS 15 LINES 0 CHARGE 17
445/1  11210000/OUTPUT@FAULT 12 AT 6,7: DATUM ILL FORMED@POST-MORTEM@  BLOCK 6,1@  BLOCK 1,1@    LIST = PUPIL.1@    P = ?@    M = 55@    N = 1@    S = 70@    W = \"ADA         \"@CARDS 16 STEPS 15 LINES 0 CHARGE 17
447/1  11220000/OUTPUT@FAULT 11 AT 7,25: NO DATA LEFT@POST-MORTEM@  BLOCK 6,1@  BLOCK 1,1@    LIST = PUPIL.2@    P = ?@    M = 55@    N = 2@    S = 125@    W = \"GRACE       \"@CARDS 16 STEPS 19 LINES 0 CHARGE 17
448/1  11220000/OUTPUT@FAULT 12 AT 7,25: DATUM ILL FORMED@POST-MORTEM@  BLOCK 6,1@  BLOCK 1,1@    LIST = PUPIL.2@    P = ?@    M = 55@    N = 2@    S = 125@    W = \"GRACE       \"@CARDS 17 STEPS 19 LINES 0 CHARGE 18
450/1  11221121/OUTPUT@GRACE                   55@ADA                     70@MEAN            62@ENDED NORMALLY@CARDS 17 STEPS 30 LINES 3 CHARGE 24
";

/// The row for a batch that is cut off there.
fn row_for(length: usize) -> Result<&'static str, Fail> {
    for row in CUT.lines() {
        let Some((most, rest)) = row.split_once('/') else {
            return Err(Fail::from("a row begins with a number"));
        };
        if length <= most.parse()? {
            return Ok(rest);
        }
    }
    Err(Fail::from("the batch is longer"))
}

/// Adds a card of the deck, with its number and its count.
fn push_card(
    alloc: Global,
    listing: &mut String,
    number: u32,
    count: char,
    card: &str,
) -> Result<(), AllocError> {
    let line = format!(in alloc; "{number:>4}        {count}  {card}\n")?;
    listing.push_str(line.as_str())
}

/// Adds the cards of the deck of a cut batch, each with its number and its count.
fn push_cards(
    alloc: Global,
    listing: &mut String,
    cut: &str,
    counts: &str,
) -> Result<(), AllocError> {
    let mut counts = counts.chars();
    let mut number = 0_u32;
    for card in cut.lines().skip(2) {
        if card == "%DATA" {
            break;
        }
        number = number.wrapping_add(1);
        let count = counts.next().unwrap_or(' ');
        push_card(alloc, listing, number, count, card.trim_end())?;
    }
    Ok(())
}

/// Adds lines with marks between them.
fn push_lines(listing: &mut String, lines: &str) -> Result<(), AllocError> {
    for mark in lines.chars() {
        listing.push(if mark == '@' { '\n' } else { mark })?;
    }
    Ok(())
}

/// Adds the closing lines, behind a section in whose last line the charge stands last.
fn push_closing(alloc: Global, listing: &mut String, section: &str) -> Result<(), Fail> {
    let Some((_, charge)) = section.rsplit_once(' ') else {
        return Err(Fail::from("a row ends with the charge"));
    };
    let left = 1_000_u32.saturating_sub(charge.parse()?);
    let closing = format!(in alloc;
        "\n\nCLOSING BALANCES\nADA OPENING 1000 CHARGES {charge} CLOSING {left}\nSTRAY CARDS 0\n"
    )?;
    listing.push_str(closing.as_str())?;
    Ok(())
}

/// Adds the listing of a cut batch, by its row.
fn push_listing(alloc: Global, listing: &mut String, cut: &str, row: &str) -> Result<(), Fail> {
    let Some((counts, text)) = row.split_once('/') else {
        return Err(Fail::from("a row has counts"));
    };
    listing.push_str("ALGOL W BATCH\n\n")?;
    if counts == "-" {
        push_lines(listing, text)?;
        return Ok(());
    }
    listing.push_str("JOB 1 X ADA\n")?;
    push_cards(alloc, listing, cut, counts)?;
    push_lines(listing, text)?;
    push_closing(alloc, listing, text)
}

/// The listing of a cut batch, by its row.
fn listing_by(alloc: Global, cut: &str, row: &str) -> Result<String, Fail> {
    let mut listing = String::new(alloc);
    push_listing(alloc, &mut listing, cut, row)?;
    Ok(listing)
}

#[test]
fn a_batch_may_be_cut_off_anywhere(rt: HostRuntime) -> Result<(), Fail> {
    let alloc = rt.alloc();
    for length in 0..=CLASS.len() {
        let Some(cut) = CLASS.get(..length) else {
            return Err(Fail::from("a byte is a character"));
        };
        let listing = listing_by(alloc, cut, row_for(length)?)?;
        let run = run(&rt, alloc, "--workers 1", cut.as_bytes(), &AMPLE)?;
        run.check(&rt, cut, Status::Done, listing.as_bytes());
    }
    Ok(())
}
