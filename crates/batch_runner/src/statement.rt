ghost use Rattle.std.specs.Prelude.{◌≡◌, IfOk, IsErrOf, OnOk};
ghost use Rattle.batch_io.specs.Causes.{Rose};
ghost use Rattle.batch_intake.specs.Halts.{IsTooLarge};
ghost use Rattle.batch_runner.specs.Outcome.{IsStated};

use crate::listing::write_sections;
use crate::nowhere::Nowhere;
use crate::running::Staff;
use account_statements::statement_of;
use batch_intake::Halt;
use batch_io::{Gate, Source};
use deck_reader::Name;
use std::alloc::Global;
use std::sync::Wait;
use std::thread::Threads;

/// Reads a batch and runs its jobs, as for its listing, which isn't written, and makes the statement of the account with this
/// name, or the text that says that there is none.
pub fn make_statement<R: Threads + Wait + Sync, S: Source, G: Gate>(
    rt: &R,
    alloc: Global,
    name: &Name,
    src: &mut S,
    staff: Staff,
    gate: &G,
) -> Result<Vec<u8>, Halt>
    ensures done { IfOk result (λ text. IsStated name.now (S.left src.old) (S.left src.new) text.items) }
    ensures kept { OnOk result (S.faults src.new ≡ S.faults src.old) }
    ensures read { IsErrOf result Halt.ReadFault → Rose (S.faults src.old) (S.faults src.new) }
    ensures write { IsErrOf result Halt.WriteFault → ⊥ }
    ensures large { IsErrOf result Halt.TooLarge → IsTooLarge (S.left src.old) (S.left src.new) }
{
    let mut nowhere = Nowhere;
    let served = write_sections(rt, alloc, None, src, &mut nowhere, staff, false, gate)?;
    let text = statement_of(
        alloc,
        name,
        served.audit.book(),
        served.jobs.as_slice(),
        served.decisions.as_slice(),
    )?;
    Ok(text)
}
