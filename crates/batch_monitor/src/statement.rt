ghost use Rattle.std.specs.Prelude.{◌≡◌, ◌⊎◌, IfErr, OnOk, IsErrOf};
ghost use Rattle.batch_io.specs.Causes.{Rose};
ghost use Rattle.batch_intake.specs.Halts.{IsTooLarge};
ghost use Rattle.batch_monitor.specs.Stated.{WroteStatement, WroteStatementInPart};

use batch_io::{Gate, Sink, Source};
use batch_listing::write_all_of;
use batch_runner::{Halt, Staff, make_statement};
use deck_reader::Name;
use std::alloc::Global;
use std::sync::Wait;
use std::thread::Threads;

/// Reads a batch, runs its jobs, and writes the statement of the account with this name, or the text that says that there is
/// none. Before the batch is read to its end and all its jobs have run, nothing is written.
pub fn run_statement<R: Threads + Wait + Sync, S: Source, K: Sink, G: Gate>(
    rt: &R,
    alloc: Global,
    name: &Name,
    src: &mut S,
    sink: &mut K,
    staff: Staff,
    gate: &G,
) -> Result<(), Halt>
    ensures done { OnOk result (WroteStatement name.now (S.left src.old) (S.left src.new) (K.written sink.old) (K.written sink.new)) }
    ensures cut { IfErr result (λ halt. (sink.new ≡ sink.old) ⊎ ((halt ≡ Halt.WriteFault)
        × WroteStatementInPart name.now (S.left src.old) (S.left src.new) (K.written sink.old) (K.written sink.new))) }
    ensures kept { OnOk result ((S.faults src.new ≡ S.faults src.old) × (K.faults sink.new ≡ K.faults sink.old)) }
    ensures read { IsErrOf result Halt.ReadFault → Rose (S.faults src.old) (S.faults src.new) }
    ensures write { IsErrOf result Halt.WriteFault → Rose (K.faults sink.old) (K.faults sink.new) }
    ensures large { IsErrOf result Halt.TooLarge → IsTooLarge (S.left src.old) (S.left src.new) }
{
    let text = make_statement(rt, alloc, name, src, staff, gate)?;
    write_all_of(sink, text.as_slice())?;
    Ok(())
}
