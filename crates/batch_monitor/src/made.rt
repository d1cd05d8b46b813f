ghost use Rattle.std.specs.Prelude.{◌≡◌, ◌≤◌, IfOk, OnOk, OnErr, IsErrOf};
ghost use Rattle.std.specs.Io.KnownBytes.{Appends};
ghost use Rattle.batch_io.specs.Causes.{Rose};
ghost use Rattle.batch_listing.specs.Tallies.{listing_tally};
ghost use Rattle.deck_reader.specs.Batch.{batch};
ghost use Rattle.made_batches.specs.MadeBatch.{made_batch};
ghost use Rattle.batch_listing.specs.Writing.{AppendsPrefix};
ghost use Rattle.batch_monitor.specs.Made.{made_summary};

use batch_io::{Gate, MemSource, Sink};
use batch_listing::write_all_of;
use batch_runner::{Halt, Staff, tally_listing};
use batch_summary::{Tally, summary_of};
use made_batches::{made_batch_fits, make_batch};
use std::alloc::{AllocError, Global};
use std::sync::Wait;
use std::thread::Threads;

/// How many bytes of a made batch are read at a time.
const PIECE: usize = 4096;

/// Makes a batch of so many jobs, at most 2,000, from a seed, runs its jobs, and writes the summary of its listing.
pub fn run_made<R: Threads + Wait + Sync, K: Sink, G: Gate>(
    rt: &R,
    alloc: Global,
    sink: &mut K,
    seed: u32,
    jobs: u32,
    staff: Staff,
    gate: &G,
) -> Result<(), Halt>
    requires few { jobs ≤ 2000 }
    ensures done { OnOk result (Appends (K.written sink.old) (K.written sink.new) (made_summary seed jobs)) }
    ensures cut { OnErr result (AppendsPrefix (K.written sink.old) (K.written sink.new) (made_summary seed jobs)) }
    ensures kept { OnOk result (K.faults sink.new ≡ K.faults sink.old) }
    ensures read { IsErrOf result Halt.ReadFault → ⊥ }
    ensures write { IsErrOf result Halt.WriteFault → Rose (K.faults sink.old) (K.faults sink.new) }
    ensures large { IsErrOf result Halt.TooLarge → ⊥ }
{
    let tally = tally_made(rt, alloc, seed, jobs, staff, gate)?;
    let summary = summary_of(alloc, seed, jobs, &tally)?;
    write_all_of(sink, summary.as_slice())?;
    Ok(())
}

/// What the listing of the batch of so many jobs that is made from a seed comes to.
fn tally_made<R: Threads + Wait + Sync, G: Gate>(
    rt: &R,
    alloc: Global,
    seed: u32,
    jobs: u32,
    staff: Staff,
    gate: &G,
) -> Result<Tally, AllocError>
    requires { jobs ≤ 2000 }
    ensures { IfOk result (λ tally. tally ≡ listing_tally (batch (made_batch seed jobs))) }
{
    made_batch_fits();
    let cards = make_batch(alloc, seed, jobs)?;
    let src = MemSource::new(cards, PIECE, Vec::new(alloc), None);
    match tally_listing(rt, alloc, src, staff, gate) {
        Ok(tally) => Ok(tally),
        // A source in memory meets no fault that it isn't told to meet.
        Err(Halt::NoMemory | Halt::ReadFault) => Err(AllocError),
        Err(Halt::WriteFault | Halt::TooLarge) => unreachable!(),
    }
}
