ghost use Rattle.std.specs.Prelude.{◌≡◌, ◌⊎◌, ℕ, List, Option, IfSome, false, true};
ghost use Rattle.batch_io.specs.Causes.{Rose};
ghost use Rattle.deck_reader.specs.declared.batch.Account.{Account};
ghost use Rattle.deck_reader.specs.Batch.{too_large};
ghost use Rattle.batch_intake.specs.Halts.{IsTooLarge};
ghost use Rattle.batch_monitor.specs.declared.asked.Asked.{Asked};
ghost use Rattle.batch_monitor.specs.Accounts.{Given, IsBadText};
ghost use Rattle.batch_monitor.specs.Orders.{IsMake, IsRun, IsSaid, IsStatement, WithAccounts};
ghost use Rattle.batch_monitor.specs.Outcome.{IsCut, IsCutInBalances, IsDone, IsMade};
ghost use Rattle.batch_monitor.specs.Stated.{EndsBy, HasStated};

use crate::asked::Asked;
use crate::made::run_made;
use crate::run::run_batch;
use crate::statement::run_statement;
use crate::top::{Status, status_after};
use batch_io::{Gate, Sink, Source};
use batch_runner::Staff;
use command_words::Order;
use std::alloc::{AllocError, Global};
use std::sync::Wait;
use std::thread::Threads;

/// The workers that an order asks for, and their queue.
pub fn staff_for(alloc: Global, order: &Order) -> Result<Staff, AllocError>
    requires said { IsSaid order.now }
{
    match order {
        Order::Run { workers, queue, .. }
        | Order::Make { workers, queue, .. }
        | Order::Statement { workers, queue, .. } => Staff::new(alloc, *workers, *queue),
    }
}

/// Does what an order says that some words say: runs a batch that is read, runs one that is made, or states an account. Its
/// clauses are those of `run_monitor`, of the order in place of the words.
pub fn obey<R: Threads + Wait + Sync, S: Source, K: Sink, A: Source, B: Sink, G: Gate>(
    rt: &R,
    alloc: Global,
    order: &Order,
    src: &mut S,
    sink: &mut K,
    accounts_src: &mut A,
    accounts_sink: &mut B,
    staff: Staff,
    gate: &G,
) -> Status
    requires said { IsSaid order.now }
    ensures bad { result ≡ Status.BadWords → ⊥ }
    ensures done { (asked : Asked) → IsRun order.now asked → result ≡ Status.Done
        → IsDone asked (S.left src.old) (S.left src.new) (K.written sink.old) (K.written sink.new)
        (A.left accounts_src.old) (A.left accounts_src.new) (B.written accounts_sink.old) (B.written accounts_sink.new) }
    ensures cut { (asked : Asked) → IsRun order.now asked → (result ≡ Status.Done → ⊥)
        → IsCut asked (S.left src.old) (S.left src.new) (K.written sink.old) (K.written sink.new) (A.left accounts_src.old) (A.left accounts_src.new)
        ⊎ ((asked.accounts ≡ true) × (src.new ≡ src.old) × (sink.new ≡ sink.old)) }
    ensures balances { (asked : Asked) → IsRun order.now asked → (result ≡ Status.Done → ⊥)
        → (accounts_sink.new ≡ accounts_sink.old) ⊎ ((result ≡ Status.WriteFault)
        × IsCutInBalances asked (S.left src.old) (S.left src.new) (K.written sink.old) (K.written sink.new)
        (A.left accounts_src.old) (A.left accounts_src.new) (B.written accounts_sink.old) (B.written accounts_sink.new)) }
    ensures alone { (asked : Asked) → IsRun order.now asked → asked.accounts ≡ false
        → (accounts_src.new ≡ accounts_src.old) × (accounts_sink.new ≡ accounts_sink.old) }
    ensures kept { result ≡ Status.Done
        → (S.faults src.new ≡ S.faults src.old) × (K.faults sink.new ≡ K.faults sink.old)
        × (A.faults accounts_src.new ≡ A.faults accounts_src.old) × (B.faults accounts_sink.new ≡ B.faults accounts_sink.old) }
    ensures read { result ≡ Status.ReadFault → Rose (S.faults src.old) (S.faults src.new)
        ⊎ (WithAccounts order.now × Rose (A.faults accounts_src.old) (A.faults accounts_src.new)) }
    ensures write { result ≡ Status.WriteFault → Rose (K.faults sink.old) (K.faults sink.new)
        ⊎ (WithAccounts order.now × Rose (B.faults accounts_sink.old) (B.faults accounts_sink.new)) }
    ensures large { result ≡ Status.TooLarge → IsTooLarge (S.left src.old) (S.left src.new) }
    ensures accounts { result ≡ Status.BadAccounts
        → WithAccounts order.now × IsBadText (A.left accounts_src.old) (A.left accounts_src.new) }
    ensures unread { result ≡ Status.BadAccounts
        → (src.new ≡ src.old) × (sink.new ≡ sink.old) × (accounts_sink.new ≡ accounts_sink.old) }
    ensures known { (asked : Asked) → IsRun order.now asked
        → ((given : Option (List Account)) × Given asked.accounts (A.left accounts_src.old) (A.left accounts_src.new) given)
        ⊎ (result ≡ Status.BadAccounts) ⊎ (result ≡ Status.NoMemory) ⊎ Rose (A.faults accounts_src.old) (A.faults accounts_src.new) }
    ensures made { (seed jobs : ℕ) → IsMake order.now seed jobs
        → IsMade seed jobs (K.written sink.old) (K.written sink.new) result
        × (src.new ≡ src.old) × (accounts_src.new ≡ accounts_src.old) × (accounts_sink.new ≡ accounts_sink.old) }
    ensures statement { (name : List ℕ) → IsStatement order.now name
        → HasStated name (S.left src.old) (S.left src.new) (K.written sink.old) (K.written sink.new) (sink.new ≡ sink.old) result
        × (accounts_src.new ≡ accounts_src.old) × (accounts_sink.new ≡ accounts_sink.old) }
    ensures stated { (name : List ℕ) → IsStatement order.now name
        → (Rose (S.faults src.old) (S.faults src.new) → ⊥) → (Rose (K.faults sink.old) (K.faults sink.new) → ⊥)
        → IfSome (S.left src.old) (λ b. EndsBy (too_large b) result) }
{
    match order {
        Order::Run {
            accounts,
            board,
            ..
        } => {
            let asked = Asked {
                accounts: *accounts,
                board: *board,
            };
            run_batch(
                rt,
                alloc,
                asked,
                src,
                sink,
                accounts_src,
                accounts_sink,
                staff,
                gate,
            )
        }
        Order::Make { seed, jobs, .. } => {
            status_after(run_made(rt, alloc, sink, *seed, *jobs, staff, gate))
        }
        Order::Statement { name, .. } => {
            status_after(run_statement(rt, alloc, name, src, sink, staff, gate))
        }
    }
}
