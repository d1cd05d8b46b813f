use crate::rows::{see, unsigned, words};
use deck_reader::{FeedError, Reader};
use std::alloc::Global;
use std::process::Abort;
use std::test::Fail;

/// Three jobs: a head ends the first, an end card the second, and the input's end the third.
const THREE: &[u8] = b"%ACCOUNT ADA 9
%JOB A,ADA
BEGIN END.
%JOB B,ADA
%EOJ
STRAY
%JOB C,ADA";

/// Behind so many bytes the accounts are known or open, and so many jobs have ended.
const CUTS: &str = "\
0 open 0
15 open 0
25 open 0
26 known 0
37 known 0
47 known 0
48 known 1
52 known 1
53 known 2
59 known 2
69 known 2
";

/// The numbers of the jobs that can be taken are the next ones, so many.
fn take(rt: &impl Abort, reader: &mut Reader, from: u32, count: u32) {
    for number in 0..count {
        let job = reader.take_job();
        let next = from.wrapping_add(number);
        see(rt, "the next job", job.is_some_and(|j| j.number == next));
    }
    see(rt, "no other job", reader.take_job().is_none());
}

/// A reader that was fed the first bytes.
fn fed(alloc: Global, bytes: &[u8]) -> Result<Reader, FeedError> {
    let mut reader = Reader::new(alloc)?;
    reader.feed(bytes)?;
    Ok(reader)
}

/// Feeds the first bytes of the batch and then the others, and sees which accounts and jobs there are.
fn check_cut(
    rt: &impl Abort,
    alloc: Global,
    cut: usize,
    known: bool,
    ended: u32,
) -> Result<(), FeedError> {
    let (front, behind) = THREE.split_at(cut.min(THREE.len()));
    let mut reader = fed(alloc, front)?;
    see(
        rt,
        "accounts at the cut",
        reader.accounts().is_some() == known,
    );
    take(rt, &mut reader, 1, ended);
    reader.feed(behind)?;
    see(
        rt,
        "one account",
        reader.accounts().is_some_and(|a| a.len() == 1),
    );
    take(
        rt,
        &mut reader,
        ended.wrapping_add(1),
        2_u32.wrapping_sub(ended),
    );
    let batch = reader.finish()?;
    let last = batch.jobs.as_slice().first().map(|j| j.number);
    see(rt, "the last job", last == Some(3) && batch.stray == 1);
    Ok(())
}

#[test]
fn jobs_are_taken_as_they_end(rt: HostRuntime) -> Result<(), Fail> {
    for row in CUTS.lines() {
        let [cut, known, ended, ..] = words(row);
        let (cut, ended) = (unsigned(&rt, cut), unsigned(&rt, ended));
        check_cut(&rt, rt.alloc(), cut as usize, known == "known", ended)?;
    }
    Ok(())
}
