use crate::rows::{columns, see, unsigned, words};
use deck_reader::{FeedError, Job, KeptLibrary, Reader};
use std::alloc::{AllocError, Global};
use std::process::Abort;
use std::test::Fail;

/// Cards before the first job, with a stroke between two; the libraries that are kept of them, each with how many cards it has; and how
/// many cards are stray.
const FRONTS: &str = "\
%LIBRARY A/P/Q|A 2|0
%library   ada1|ADA1 0|0
%LIBRARY A/P///Q|A 4|0
%LIBRARY A/P/%LIBRARY B/Q/R|A 1 B 2|0
%LIBRARY A/P/%LIBRARY a/Q/|A 1|2
%LIBRARY A/%JOBX/%LIBRARYX B/% |A 3|0
%LIBRARY A/P/%ACCOUNT BOB 5/Q|A 1|1
%LIBRARY A/P/%ACCOUNT BOB/Q|A 1|2
%LIBRARY A/P/%DATA/Q/%EOJ/R|A 1|4
%LIBRARY A/P/%LIBRARY/Q|A 1|2
P/%LIBRARY A/Q|A 1|1
%LIBRARY/P||2
%LIBRARY A B/P||2
%LIBRARY A,/P||2
%LIBRARYX A/P||2
%LIBRARY 1A/P||2
%LIBRARY ABCDEFGH|ABCDEFGH 0|0
%LIBRARY ABCDEFGHI||1
/ /||0
";

/// A job card behind the cards of an account, of a library of one card and of an ill-formed one; how many cards the job's library has,
/// or that it has none; and the number of its flaw, 0 where it has none.
const JOB_CARDS: &str = "\
%JOB X,ADA|none|0
%JOB X,ADA,LIB=ONE|1|0
%JOB X,ADA, lib = one |1|0
%JOB X,ADA,STEPS=7,LIB=ONE,LINES=7|1|0
%JOB X,ADA,LIB=ILL|none|8
%JOB X,ADA,LIB=OTHER|none|7
%JOB X,EVE,LIB=OTHER|none|6
%JOB X,ADA,LIB=OTHER,LINES=0|none|4
%JOB X,ADA,LIB=ONE,LIB=ONE|none|3
%JOB X,ADA,LIB=|none|3
%JOB X,ADA,LIB|none|3
%JOB X,ADA,LIB=A B|none|3
%JOB X,ADA,LIB=1A|none|3
%JOB X,ADA,LIB=ABCDEFGHI|none|3
%JOB X,ADA,LIBRARY=ONE|none|3
";

/// So many cards of a library, and whether it is well formed.
const SIZES: &str = "\
0|well
500|well
501|ill
";

/// The bytes of cards with a stroke between two, of which the last one ends with a line feed.
fn cards_of(alloc: Global, column: &str) -> Result<Vec<u8>, AllocError> {
    let mut bytes = Vec::new(alloc);
    for card in column.split('/') {
        bytes.extend_from_slice(card.as_bytes())?;
        bytes.push(b'\n')?;
    }
    Ok(bytes)
}

/// A reader that was fed these bytes in two parts, and then a job card.
fn fed(alloc: Global, bytes: &[u8], cut: usize) -> Result<Reader, FeedError> {
    let (first, second) = bytes.split_at(cut.min(bytes.len()));
    let mut reader = Reader::new(alloc)?;
    reader.feed(first)?;
    reader.feed(second)?;
    reader.feed(b"%JOB X,ADA\n")?;
    Ok(reader)
}

/// Whether a library is kept under this name, with so many cards.
fn has_cards(rt: &impl Abort, kept: &KeptLibrary, name: &str, count: &str) -> bool {
    let cards = kept.library.as_ref().map(|l| l.cards.len());
    kept.name.as_slice() == name.as_bytes() && cards == Some(unsigned(rt, count) as usize)
}

/// Sees that these libraries are kept, at most four.
fn check_kept(rt: &impl Abort, row: &str, kept: &[KeptLibrary], wanted: &str) {
    let [first, a, second, b, ..] = words(wanted);
    let holds = match kept {
        [] => first.is_empty(),
        [one] => has_cards(rt, one, first, a) && second.is_empty(),
        [one, other] => has_cards(rt, one, first, a) && has_cards(rt, other, second, b),
        _ => false,
    };
    see(rt, row, holds);
}

/// Sees what is kept of a row's cards, which are fed in two parts.
fn check_cut(rt: &impl Abort, alloc: Global, row: &str, cut: usize) -> Result<(), FeedError> {
    let [column, wanted, stray, ..] = columns(row);
    let bytes = cards_of(alloc, column)?;
    let reader = fed(alloc, bytes.as_slice(), cut)?;
    match reader.libraries() {
        Some(kept) => check_kept(rt, row, kept, wanted),
        None => see(rt, row, false),
    }
    let batch = reader.finish()?;
    see(rt, row, batch.stray == unsigned(rt, stray));
    Ok(())
}

#[test]
fn libraries_before_the_first_job(rt: HostRuntime) -> Result<(), Fail> {
    for row in FRONTS.lines() {
        for cut in 0..=row.len() {
            check_cut(&rt, rt.alloc(), row, cut)?;
        }
    }
    Ok(())
}

/// The cards before the job cards: an account, a library of one card, and one with a byte that isn't allowed.
const FRONT: &[u8] = b"%ACCOUNT ADA 1\n%LIBRARY ONE\nP\n%LIBRARY ILL\n\x07\n";

/// The job of a card behind the libraries.
fn job_of(alloc: Global, card: &str) -> Result<Option<Job>, FeedError> {
    let mut reader = Reader::new(alloc)?;
    reader.feed(FRONT)?;
    reader.feed(card.as_bytes())?;
    let batch = reader.finish()?;
    Ok(batch.jobs.into_vec().pop())
}

/// Sees which library and which flaw a job has.
fn check_job(rt: &impl Abort, row: &str, job: &Job, library: &str, flaw: &str) {
    let number = job.flaw.map_or(0, |f| f.number());
    see(rt, row, u32::from(number) == unsigned(rt, flaw));
    match &job.library {
        None => see(rt, row, library == "none"),
        Some(found) => see(rt, row, found.cards.len() == unsigned(rt, library) as usize),
    }
}

#[test]
fn libraries_of_jobs(rt: HostRuntime) -> Result<(), Fail> {
    for row in JOB_CARDS.lines() {
        let [card, library, flaw, ..] = columns(row);
        match job_of(rt.alloc(), card)? {
            None => see(&rt, row, false),
            Some(job) => check_job(&rt, row, &job, library, flaw),
        }
    }
    Ok(())
}

/// A library of so many cards, and the job that names it.
fn sized(alloc: Global, count: u32) -> Result<Option<Job>, FeedError> {
    let mut reader = Reader::new(alloc)?;
    reader.feed(b"%ACCOUNT ADA 1\n%LIBRARY A\n")?;
    for _ in 0..count {
        reader.feed(b"P\n")?;
    }
    reader.feed(b"%JOB X,ADA,LIB=A\n")?;
    let batch = reader.finish()?;
    Ok(batch.jobs.into_vec().pop())
}

#[test]
fn sizes_of_libraries(rt: HostRuntime) -> Result<(), Fail> {
    for row in SIZES.lines() {
        let [count, kind, ..] = columns(row);
        match sized(rt.alloc(), unsigned(&rt, count))? {
            None => see(&rt, row, false),
            Some(job) => see(&rt, row, job.library.is_some() == (kind == "well")),
        }
    }
    Ok(())
}

/// Libraries with the names of these letters, each with a card.
fn lettered(alloc: Global, letters: &[u8]) -> Result<Reader, FeedError> {
    let mut reader = Reader::new(alloc)?;
    for letter in letters {
        reader.feed(b"%LIBRARY ")?;
        reader.feed(&[*letter])?;
        reader.feed(b"\nP\n")?;
    }
    reader.feed(b"%JOB X,ADA\n")?;
    Ok(reader)
}

#[test]
fn twenty_libraries(rt: HostRuntime) -> Result<(), Fail> {
    let reader = lettered(rt.alloc(), b"ABCDEFGHIJKLMNOPQRSTUVW")?;
    let count = reader.libraries().map(|l| l.len());
    see(&rt, "20 are kept", count == Some(20));
    let batch = reader.finish()?;
    see(&rt, "three, with their cards", batch.stray == 6);
    Ok(())
}
