//! Sources and sinks that fail at each place in turn, while a batch is run whose second job is refused early.

use crate::cases::{see, see_in};
use crate::gates::{TIGHT, TIGHT_LISTING};
use crate::runs::{AMPLE, Outside, run};
use batch_monitor::Status;
use std::alloc::{AllocError, Global};
use std::process::Abort;
use std::sync::Wait;
use std::test::Fail;
use std::thread::Threads;

/// The first bytes, so many as there are.
fn first(bytes: &[u8], count: usize) -> &[u8] {
    &bytes[..count.min(bytes.len())]
}

/// The listing of the batch's first bytes, made with no fault.
fn listing_of<R: Threads + Wait + Sync>(
    rt: &R,
    alloc: Global,
    batch: &[u8],
    count: usize,
) -> Result<Vec<u8>, AllocError> {
    let run = run(rt, alloc, "--workers 1", first(batch, count), &AMPLE)?;
    Ok(run.written)
}

/// Runs the batch with these words. Sees that a run writes the listing whole, or a prefix of it and ends with this fault.
/// Tells how many bytes it writes.
fn written_by<R: Threads + Wait + Sync + Abort>(
    rt: &R,
    alloc: Global,
    words: &str,
    outside: &Outside,
    fault: Status,
    listing: &[u8],
) -> Result<usize, AllocError> {
    let run = run(rt, alloc, words, TIGHT, outside)?;
    let written = run.written.as_slice();
    let whole = written.len() == listing.len();
    let due = if whole { Status::Done } else { fault };
    see(rt, words, run.status == due);
    see(rt, words, listing.starts_with(written));
    Ok(written.len())
}

/// Runs the batch with one worker, and in each fiftieth case with four as well. Tells how many bytes a run writes, or the one
/// that writes least.
fn written<R: Threads + Wait + Sync + Abort>(
    rt: &R,
    alloc: Global,
    case: usize,
    outside: &Outside,
    fault: Status,
    listing: &[u8],
) -> Result<usize, AllocError> {
    let least = written_by(rt, alloc, "--workers 1 --queue 1", outside, fault, listing)?;
    if case % 50 > 0 {
        return Ok(least);
    }
    let more = written_by(rt, alloc, "--workers 4 --queue 1", outside, fault, listing)?;
    Ok(least.min(more))
}

#[test]
fn a_stopped_source_leaves_a_prefix_of_the_listing_of_what_it_gave(
    rt: HostRuntime,
) -> Result<(), Fail> {
    let alloc = rt.alloc();
    for count in 0..=TIGHT.len() {
        let outside = Outside {
            source_stop: Some(count as u64),
            ..AMPLE
        };
        let given = listing_of(&rt, alloc, TIGHT, count)?;
        let listing = given.as_slice();
        let least = written(&rt, alloc, count, &outside, Status::ReadFault, listing)?;
        see_in(&rt, count, AMPLE.piece, least < listing.len());
    }
    Ok(())
}

#[test]
fn a_stopped_sink_has_just_what_it_took(rt: HostRuntime) -> Result<(), Fail> {
    for sink_stop in 0..1_000_u32 {
        let outside = Outside { sink_stop, ..AMPLE };
        let count = sink_stop as usize;
        let least = written(
            &rt,
            rt.alloc(),
            count,
            &outside,
            Status::WriteFault,
            TIGHT_LISTING,
        )?;
        see_in(&rt, count, AMPLE.piece, least == count);
        if count == TIGHT_LISTING.len() {
            return Ok(());
        }
    }
    Err(Fail::from("the listing is longer"))
}

/// The sizes of the pieces in which each read and each write is tried.
const PIECES: [usize; 2] = [1, 64];

/// The last read finds the end, behind those that hand out all bytes.
#[test]
fn each_read_may_fail(rt: HostRuntime) -> Result<(), Fail> {
    let alloc = rt.alloc();
    for piece in PIECES {
        for before in 0..1_000_u32 {
            let outside = Outside {
                piece,
                failing_read: Some(before + 1),
                ..AMPLE
            };
            let case = before as usize;
            let given = listing_of(&rt, alloc, TIGHT, case.saturating_mul(piece))?;
            let listing = given.as_slice();
            let least = written(&rt, alloc, case, &outside, Status::ReadFault, listing)?;
            let ended = case.saturating_sub(1).saturating_mul(piece) >= TIGHT.len();
            see_in(&rt, case, piece, (least == listing.len()) == ended);
            if ended {
                break;
            }
        }
    }
    Ok(())
}

#[test]
fn each_write_may_fail(rt: HostRuntime) -> Result<(), Fail> {
    for piece in PIECES {
        for before in 0..1_000_u32 {
            let outside = Outside {
                piece,
                failing_write: Some(before + 1),
                ..AMPLE
            };
            let case = before as usize;
            let fault = Status::WriteFault;
            let least = written(&rt, rt.alloc(), case, &outside, fault, TIGHT_LISTING)?;
            let most = case.saturating_mul(piece);
            see_in(&rt, case, piece, case <= least && least <= most);
            if least == TIGHT_LISTING.len() {
                break;
            }
        }
    }
    Ok(())
}

#[test]
fn a_sink_takes_all_a_byte_at_a_time(rt: HostRuntime) -> Result<(), Fail> {
    let outside = Outside { piece: 1, ..AMPLE };
    let least = written(
        &rt,
        rt.alloc(),
        0,
        &outside,
        Status::WriteFault,
        TIGHT_LISTING,
    )?;
    see(&rt, "all is taken", least == TIGHT_LISTING.len());
    Ok(())
}

/// A batch of one sum.
const SUM: &[u8] = b"%ACCOUNT ADA 500
%JOB SUM,ADA
BEGIN WRITE(2 + 2) END.
%EOJ
";

#[test]
fn a_batch_of_one_sum_may_be_stopped(rt: HostRuntime) -> Result<(), Fail> {
    let alloc = rt.alloc();
    let outside = Outside {
        source_stop: Some(30),
        ..AMPLE
    };
    let read = run(&rt, alloc, "", SUM, &outside)?;
    let listing = listing_of(&rt, alloc, SUM, 30)?;
    see(&rt, "30 bytes", read.status == Status::ReadFault);
    let prefix = listing.starts_with(read.written.as_slice());
    see(&rt, "a prefix", prefix);
    let outside = Outside {
        sink_stop: 20,
        ..AMPLE
    };
    let cut = run(&rt, alloc, "", SUM, &outside)?;
    cut.check(
        &rt,
        "20 bytes",
        Status::WriteFault,
        b"ALGOL W BATCH\n\nJOB 1",
    );
    Ok(())
}
