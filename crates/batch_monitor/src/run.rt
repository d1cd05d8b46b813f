ghost use Rattle.std.specs.Prelude.{◌≡◌, ◌⊎◌, List, Option, IfErr, OnErr, OnOk, IsErrOf, false, true};
ghost use Rattle.batch_io.specs.Causes.{Rose};
ghost use Rattle.deck_reader.specs.declared.batch.Account.{Account};
ghost use Rattle.batch_intake.specs.Halts.{IsTooLarge};
ghost use Rattle.batch_monitor.specs.Accounts.{AreGiven, Given, IsBadText};
ghost use Rattle.batch_monitor.specs.Lines.{line_text};
ghost use Rattle.batch_monitor.specs.Outcome.{IsClosed, IsClosedInPart, IsCut, IsCutInBalances, IsDone, IsPart};

use crate::accounts::{given_accounts, write_balances};
use crate::asked::Asked;
use crate::top::{Status, status_after};
use batch_io::{Gate, Sink, Source};
use batch_listing::write_all_of;
use batch_runner::{BoardLine, Halt, Staff, write_listing};
use deck_reader::{Account, Listed};
use std::alloc::Global;
use std::sync::Wait;
use std::thread::Threads;

/// Reads the accounts of a batch, where they are those of an accounts file, and then the batch; runs its jobs, and writes what
/// is asked for.
pub fn run_batch<R: Threads + Wait + Sync, S: Source, K: Sink, A: Source, B: Sink, G: Gate>(
    rt: &R,
    alloc: Global,
    asked: Asked,
    src: &mut S,
    sink: &mut K,
    accounts_src: &mut A,
    accounts_sink: &mut B,
    staff: Staff,
    gate: &G,
) -> Status
    ensures bad { result ≡ Status.BadWords → ⊥ }
    ensures done { result ≡ Status.Done
        → IsDone asked (S.left src.old) (S.left src.new) (K.written sink.old) (K.written sink.new)
        (A.left accounts_src.old) (A.left accounts_src.new) (B.written accounts_sink.old) (B.written accounts_sink.new) }
    ensures cut { (result ≡ Status.Done → ⊥)
        → IsCut asked (S.left src.old) (S.left src.new) (K.written sink.old) (K.written sink.new) (A.left accounts_src.old) (A.left accounts_src.new)
        ⊎ ((asked.accounts ≡ true) × (src.new ≡ src.old) × (sink.new ≡ sink.old)) }
    ensures balances { (result ≡ Status.Done → ⊥) → (accounts_sink.new ≡ accounts_sink.old) ⊎ ((result ≡ Status.WriteFault)
        × IsCutInBalances asked (S.left src.old) (S.left src.new) (K.written sink.old) (K.written sink.new)
        (A.left accounts_src.old) (A.left accounts_src.new) (B.written accounts_sink.old) (B.written accounts_sink.new)) }
    ensures alone { asked.accounts ≡ false → (accounts_src.new ≡ accounts_src.old) × (accounts_sink.new ≡ accounts_sink.old) }
    ensures unread { result ≡ Status.BadAccounts → (src.new ≡ src.old) × (sink.new ≡ sink.old) × (accounts_sink.new ≡ accounts_sink.old) }
    ensures kept { result ≡ Status.Done
        → (S.faults src.new ≡ S.faults src.old) × (K.faults sink.new ≡ K.faults sink.old)
        × (A.faults accounts_src.new ≡ A.faults accounts_src.old) × (B.faults accounts_sink.new ≡ B.faults accounts_sink.old) }
    ensures read { result ≡ Status.ReadFault → Rose (S.faults src.old) (S.faults src.new)
        ⊎ ((asked.accounts ≡ true) × Rose (A.faults accounts_src.old) (A.faults accounts_src.new)) }
    ensures write { result ≡ Status.WriteFault → Rose (K.faults sink.old) (K.faults sink.new)
        ⊎ ((asked.accounts ≡ true) × Rose (B.faults accounts_sink.old) (B.faults accounts_sink.new)) }
    ensures large { result ≡ Status.TooLarge → IsTooLarge (S.left src.old) (S.left src.new) }
    ensures accounts { result ≡ Status.BadAccounts
        → (asked.accounts ≡ true) × IsBadText (A.left accounts_src.old) (A.left accounts_src.new) }
    ensures known { ((given : Option (List Account)) × Given asked.accounts (A.left accounts_src.old) (A.left accounts_src.new) given)
        ⊎ (result ≡ Status.BadAccounts) ⊎ (result ≡ Status.NoMemory) ⊎ Rose (A.faults accounts_src.old) (A.faults accounts_src.new) }
{
    match given_accounts(alloc, asked.accounts, accounts_src) {
        Ok(given) => status_after(run_given(
            rt,
            alloc,
            asked,
            given,
            src,
            sink,
            accounts_sink,
            staff,
            gate,
        )),
        Err(unread) => Status::from(unread),
    }
}

/// Reads a batch, whose accounts are given where there is an accounts file, runs its jobs, and writes what is asked for.
fn run_given<R: Threads + Wait + Sync, S: Source, K: Sink, B: Sink, G: Gate>(
    rt: &R,
    alloc: Global,
    asked: Asked,
    given: Option<Listed<Account>>,
    src: &mut S,
    sink: &mut K,
    accounts_sink: &mut B,
    staff: Staff,
    gate: &G,
) -> Result<(), Halt>
    requires given { AreGiven asked.accounts given }
    ensures done { OnOk result (IsClosed asked given (S.left src.old) (S.left src.new) (K.written sink.old) (K.written sink.new)
        (B.written accounts_sink.old) (B.written accounts_sink.new)) }
    ensures cut { OnErr result (IsPart asked given (S.left src.old) (S.left src.new) (K.written sink.old) (K.written sink.new)) }
    ensures balances { IfErr result (λ halt. (accounts_sink.new ≡ accounts_sink.old) ⊎ ((halt ≡ Halt.WriteFault)
        × IsClosedInPart asked given (S.left src.old) (S.left src.new) (K.written sink.old) (K.written sink.new)
        (B.written accounts_sink.old) (B.written accounts_sink.new))) }
    ensures alone { asked.accounts ≡ false → accounts_sink.new ≡ accounts_sink.old }
    ensures kept { OnOk result ((S.faults src.new ≡ S.faults src.old) × (K.faults sink.new ≡ K.faults sink.old)
        × (B.faults accounts_sink.new ≡ B.faults accounts_sink.old)) }
    ensures read { IsErrOf result Halt.ReadFault → Rose (S.faults src.old) (S.faults src.new) }
    ensures write { IsErrOf result Halt.WriteFault → Rose (K.faults sink.old) (K.faults sink.new)
        ⊎ ((asked.accounts ≡ true) × Rose (B.faults accounts_sink.old) (B.faults accounts_sink.new)) }
    ensures large { IsErrOf result Halt.TooLarge → IsTooLarge (S.left src.old) (S.left src.new) }
{
    let written = write_listing(rt, alloc, given, src, sink, staff, asked.board, gate)?;
    let line = line_text(alloc, written.line);
    write_all_of(sink, line.as_slice())?;
    if !asked.accounts {
        return Ok(());
    }
    write_balances(alloc, &written.audit, accounts_sink)
}

/// The text of a board's line, or none.
fn line_text(alloc: Global, line: Option<BoardLine>) -> Vec<u8>
    ensures { result.items ≡ line_text line }
{
    match line {
        Some(line) => line.text,
        None => Vec::new(alloc),
    }
}
