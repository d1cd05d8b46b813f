use account_book::{Counts, Decision};
use account_statements::{Statement, no_account};
use deck_reader::{FeedError, Name, Reader};
use std::alloc::Global;
use std::test::Fail;

/// A batch of one account, whose second job isn't covered.
const TIGHT: &[u8] = b"%ACCOUNT ADA 300
%JOB LONG,ADA,LINES=1
BEGIN INTEGER I; I := 0;
WHILE I < 1000 DO I := I + 1;
WRITE(I) END.
%JOB BIG,ADA
BEGIN END.
%JOB TINY,ADA,STEPS=100,LINES=1
BEGIN WRITE(3) END.
%JOB FOUR,ADA,STEPS=0
";

const STATEMENT: &[u8] = b"STATEMENT ADA OPENING 300
1 LONG CARDS 4 STEPS 2004 LINES 1 CHARGE 27 BALANCE 273
2 BIG REFUSED: RESERVE 302, BALANCE 273
3 TINY CARDS 2 STEPS 2 LINES 1 CHARGE 5 BALANCE 268
4 FOUR REFUSED 4
CLOSING 268
";

/// What becomes of its jobs that have no flaw.
const DECISIONS: [Decision; 3] = [
    Decision::Charged(Counts {
        cards: 4,
        steps: 2004,
        lines: 1,
    }),
    Decision::Refused {
        reserve: 302,
        balance: 273,
    },
    Decision::Charged(Counts {
        cards: 2,
        steps: 2,
        lines: 1,
    }),
];

fn statement(alloc: Global) -> Result<Vec<u8>, FeedError> {
    let mut reader = Reader::new(alloc)?;
    reader.feed(TIGHT)?;
    let batch = reader.finish()?;
    let mut statement = Statement::start(alloc, &Name::from_slice(b"ADA"), 300)?;
    let jobs = batch.jobs.as_slice();
    for (job, decision) in jobs.iter().zip(&DECISIONS) {
        statement.add(job, decision)?;
    }
    if let Some(job) = jobs.last()
        && let Some(flaw) = job.flaw
    {
        statement.add(job, &Decision::Flawed(flaw))?;
    }
    let text = statement.finish()?;
    Ok(text)
}

#[test]
fn a_statement_has_a_line_for_each_job(rt: HostRuntime) -> Result<(), Fail> {
    let text = statement(rt.alloc())?;
    assert_eq!(rt; text.as_slice(), STATEMENT);
    Ok(())
}

#[test]
fn no_account_has_the_name(rt: HostRuntime) -> Result<(), Fail> {
    let text = no_account(rt.alloc(), &Name::from_slice(b"EVE"))?;
    assert_eq!(rt; text.as_slice(), b"STATEMENT EVE: NO ACCOUNT\n".as_slice());
    Ok(())
}
