use crate::rows::{columns, see, unsigned, words};
use deck_reader::{Batch, FeedError, Flaw, Job, Reader};
use std::alloc::{AllocError, Global};
use std::process::Abort;
use std::test::Fail;

/// A job card behind the cards of the accounts ADA and B, and the job's name, account, steps, lines and the number of its flaw, 0
/// where it has none; or that it is no job card.
const JOB_CARDS: &str = "\
%job  x , ada , lines = 7 , steps = 0020|X ADA 20 7 0
%JOB X,ADA,STEPS=20,LINES=7|X ADA 20 7 0
%JOB A,B,STEPS=10000000,LINES=500|A B 10000000 500 0
%JOB A,EVE,STEPS=10000000|A EVE 10000000 100 6
%JOB A,EVE,STEPS=10000001|A EVE 10000 100 4
%JOB A,B,LINES=501|A B 10000 100 4
%JOB A,B,LINES=9999999999999999999999999999999999999999|A B 10000 100 4
%JOB A,B,STEPS=4294967296|A B 10000 100 4
%JOB ABCDEFG8,B |ABCDEFG8 B 10000 100 0
%JOB ABCDEFGH9,B|? ? 10000 100 3
%JOB A,B,STEPS=1,STEPS=2|? ? 10000 100 3
%JOB A,B,STEPS=1,LINES=2,STEPS=1|? ? 10000 100 3
%JOB A,B,STEPS=|? ? 10000 100 3
%JOB A,B,STEPS|? ? 10000 100 3
%JOB A|? ? 10000 100 3
%JOB A,B,|? ? 10000 100 3
%JOBX A,B|none
";

/// A card in front of all jobs, and the account that it opens, with its balance, or that it opens none.
const ACCOUNT_CARDS: &str = "\
%ACCOUNT ada 0500|ADA 500
%account  Ada  999999999|ADA 999999999
%ACCOUNT ADA 1000000000|none
%ACCOUNT ADA 5 5|none
%ACCOUNT ADA|none
%ACCOUNTS ADA 5|none
";

/// A piece of a job's deck, whether it is a card or holds a byte that isn't allowed, and what it is when it is cleaned. Small letters
/// stand for bytes: `r` for a carriage return, `t` for a tab, and `c` and `a` for the two bytes of a not sign.
const PIECES: &str = "\
|card|
A|card|A
Ar|card|A
ArB|foul|ArB
rA|foul|rA
Arr|foul|Ar
r|card|
A r|card|A
Ar |foul|Ar
AtBt|card|A B
tA|card| A
Atr|card|A
  t t|card|
tr|card|
X ca= Y|card|X ~= Y
caca|card|~~
c|foul|c
a|foul|a
cca|foul|c~
caa|foul|~a
cta|foul|c a
ca r|card|~
";

/// The batch of these cards, of which the last one ends with a line feed.
fn batch_of(alloc: Global, cards: &[u8], last: &[u8]) -> Result<Batch, FeedError> {
    let mut reader = Reader::new(alloc)?;
    reader.feed(cards)?;
    reader.feed(last)?;
    reader.feed(b"\n")?;
    reader.finish()
}

/// The job of a card behind two accounts, where it is a job card.
fn job_of(alloc: Global, card: &str) -> Result<Option<Job>, FeedError> {
    let batch = batch_of(alloc, b"%ACCOUNT ADA 1\n%ACCOUNT B 1\n", card.as_bytes())?;
    Ok(batch.jobs.into_vec().pop())
}

/// Sees that a job has this name, account, steps, lines and flaw.
fn check_job(rt: &impl Abort, job: &Job, wanted: &str) {
    let [name, account, steps, lines, flaw, ..] = words(wanted);
    let number = job.flaw.map_or(0, |f| f.number());
    let is_named = job.name.as_slice() == name.as_bytes();
    see(
        rt,
        wanted,
        is_named && job.account_name.as_slice() == account.as_bytes(),
    );
    see(rt, wanted, job.steps == unsigned(rt, steps));
    see(rt, wanted, job.lines == unsigned(rt, lines));
    see(rt, wanted, u32::from(number) == unsigned(rt, flaw));
}

#[test]
fn job_cards(rt: HostRuntime) -> Result<(), Fail> {
    for row in JOB_CARDS.lines() {
        let (card, wanted) = row.split_once('|').unwrap_or((row, ""));
        match job_of(rt.alloc(), card)? {
            None => see(&rt, card, wanted == "none"),
            Some(job) => check_job(&rt, &job, wanted),
        }
    }
    Ok(())
}

#[test]
fn account_cards(rt: HostRuntime) -> Result<(), Fail> {
    for row in ACCOUNT_CARDS.lines() {
        let (card, wanted) = row.split_once('|').unwrap_or((row, ""));
        let batch = batch_of(rt.alloc(), b"", card.as_bytes())?;
        match batch.accounts.as_slice() {
            [] => {
                see(&rt, card, wanted == "none" && batch.stray == 1);
            }
            [account, ..] => {
                let (name, balance) = wanted.split_once(' ').unwrap_or((wanted, ""));
                let is_named = account.name.as_slice() == name.as_bytes();
                let opening = u64::from(unsigned(&rt, balance));
                see(&rt, card, is_named && account.opening == opening);
            }
        }
    }
    Ok(())
}

/// The byte of a letter.
fn byte_of(letter: u8) -> u8 {
    match letter {
        b'r' => b'\r',
        b't' => b'\t',
        b'c' => 0xC2,
        b'a' => 0xAC,
        _ => letter,
    }
}

/// So many letters A, and the bytes of a column behind them.
fn bytes_of(alloc: Global, front: usize, column: &str) -> Result<Vec<u8>, AllocError> {
    let mut bytes = Vec::new(alloc);
    for _ in 0..front {
        bytes.push(b'A')?;
    }
    for letter in column.as_bytes() {
        bytes.push(byte_of(*letter))?;
    }
    Ok(bytes)
}

/// The job whose deck is a piece behind so many letters A.
fn job_with(alloc: Global, front: usize, piece: &str) -> Result<Option<Job>, FeedError> {
    let piece = bytes_of(alloc, front, piece)?;
    let batch = batch_of(alloc, b"%ACCOUNT B 1\n%JOB A,B\n", piece.as_slice())?;
    Ok(batch.jobs.into_vec().pop())
}

/// The flaw of the job whose deck is a piece behind so many letters A.
fn flaw_of(alloc: Global, front: usize, piece: &str) -> Result<Option<Flaw>, Fail> {
    match job_with(alloc, front, piece)? {
        Some(job) => Ok(job.flaw),
        None => Err(Fail::from("no job")),
    }
}

/// Whether a job's deck is this card alone.
fn has_deck(job: &Job, card: &[u8]) -> bool {
    match job.deck.as_slice() {
        [only] => only.as_slice() == card,
        _ => false,
    }
}

#[test]
fn cards_of_pieces(rt: HostRuntime) -> Result<(), Fail> {
    let alloc = rt.alloc();
    for row in PIECES.lines() {
        let [piece, kind, card, ..] = columns(row);
        let card = bytes_of(alloc, 0, card)?;
        // So many more letters find room on the card, and none more.
        let room = 80_usize.saturating_sub(card.len());
        let flaw = (kind == "foul").then_some(Flaw::ByteNotAllowed);
        see(&rt, row, flaw_of(alloc, room, piece)? == flaw);
        let long = flaw_of(alloc, room.saturating_add(1), piece)?;
        see(&rt, row, long == Some(Flaw::CardTooLong));
        match job_with(alloc, 0, piece)? {
            Some(job) if flaw.is_none() => see(&rt, row, has_deck(&job, card.as_slice())),
            Some(job) => see(&rt, row, job.flaw == flaw),
            None => see(&rt, row, false),
        }
    }
    Ok(())
}
