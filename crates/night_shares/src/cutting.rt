ghost use Rattle.std.specs.Prelude.{◌≡◌, ◌<◌, ◌+◌, ◌^◌, [], List, ℕ, Some, IfErr, OnErr, OnOk, sum_by};
ghost use Rattle.deck_reader.specs.declared.batch.Account.{Account};
ghost use Rattle.deck_reader.specs.Batch.{Front};
ghost use Rattle.deck_reader.specs.Cards.{pieces};
ghost use Rattle.night_shares.specs.Batches.{run_strays};
ghost use Rattle.night_shares.specs.Cutting.{AreTooLarge, CutCause, IsCutter, IsTooLarge, NoneUnread, all_filed_of};
ghost use Rattle.night_shares.specs.Filing.{Files, night_filings};
ghost use Rattle.night_shares.specs.Held.{FilesFirst};
ghost use Rattle.night_shares.specs.Jobs.{night_jobs};
ghost use Rattle.night_shares.specs.Lines.{line_runs};
ghost use Rattle.night_shares.specs.Running.{AtHead, bytes_to_come, head_of};

use crate::cutter::Cutter;
use crate::libraries::NightFront;
use crate::runs::Runs;
use crate::shelf::Shelf;
use crate::stop::Stop;
use batch_io::Source;
use deck_reader::Account;
use std::alloc::Global;

/// Cuts the cards of a night into windows, and each window by its jobs' accounts into the parts of chains. There is at least one
/// chain, and no account has the name `?`, which stands for one that can't be read. Where that stops before the end, what was filed
/// is what comes first of the whole.
pub fn cut_cards<S: Source, D: Shelf>(
    alloc: Global,
    chains: usize,
    accounts: Vec<Account>,
    src: &mut S,
    shelf: &mut D,
) -> Result<(), Stop>
    requires some { 0 < chains }
    requires names { NoneUnread accounts.items }
    ensures ok { (bytes : List ℕ) → S.left src.old ≡ Some bytes → OnOk result (Files (D.filed shelf.old) (D.filed shelf.new) (night_filings chains accounts.items (pieces bytes))) }
    ensures err { (bytes : List ℕ) → S.left src.old ≡ Some bytes → OnErr result (FilesFirst (D.filed shelf.old) (D.filed shelf.new) (night_filings chains accounts.items (pieces bytes))) }
    ensures fits { (bytes : List ℕ) → S.left src.old ≡ Some bytes → OnOk result (IsTooLarge accounts.items (pieces bytes) → ⊥) }
    ensures kept { OnOk result ((S.faults src.new ≡ S.faults src.old) × (D.faults shelf.new ≡ D.faults shelf.old)) }
    ensures cause { IfErr result (λ stop. CutCause stop (S.faults src.old) (S.faults src.new) (D.faults shelf.old) (D.faults shelf.new)
        ((bytes : List ℕ) → S.left src.old ≡ Some bytes → IsTooLarge accounts.items (pieces bytes))) }
{
    let mut runs = Runs::new(alloc)?;
    let front = runs.front(src)?;
    let front = NightFront::new(alloc, front.as_slice())?;
    let cutter = Cutter::new(alloc, chains, accounts, front)?;
    cut_runs(runs, cutter, src, shelf)
}

/// Cuts the cards from the first job on.
fn cut_runs<S: Source, D: Shelf>(
    runs: Runs,
    cutter: Cutter,
    src: &mut S,
    shelf: &mut D,
) -> Result<(), Stop>
    requires number { cutter.window.number ≡ 1 }
    requires stray { cutter.stray < 2 ^ 32 }
    ensures ok { (accounts : List Account) (libraries : List ℕ) (stray : ℕ) (front : Front) (lines : List (List ℕ)) →
        IsCutter cutter.chains accounts libraries [] stray cutter → NoneUnread accounts → front.accounts ≡ accounts → AtHead (head_of runs) (bytes_to_come runs (S.left src.old)) lines →
        OnOk result (Files (D.filed shelf.old) (D.filed shelf.new)
        (all_filed_of cutter.chains libraries (night_jobs front 1 (line_runs lines)) (stray + sum_by run_strays (line_runs lines)))) }
    ensures err { (accounts : List Account) (libraries : List ℕ) (stray : ℕ) (front : Front) (lines : List (List ℕ)) →
        IsCutter cutter.chains accounts libraries [] stray cutter → NoneUnread accounts → front.accounts ≡ accounts → AtHead (head_of runs) (bytes_to_come runs (S.left src.old)) lines →
        OnErr result (FilesFirst (D.filed shelf.old) (D.filed shelf.new)
        (all_filed_of cutter.chains libraries (night_jobs front 1 (line_runs lines)) (stray + sum_by run_strays (line_runs lines)))) }
    ensures fits { (libraries : List ℕ) (lines : List (List ℕ)) → cutter.libraries.items ≡ libraries → AtHead (head_of runs) (bytes_to_come runs (S.left src.old)) lines →
        OnOk result (AreTooLarge libraries lines → ⊥) }
    ensures kept { OnOk result ((S.faults src.new ≡ S.faults src.old) × (D.faults shelf.new ≡ D.faults shelf.old)) }
    ensures cause { IfErr result (λ stop. CutCause stop (S.faults src.old) (S.faults src.new) (D.faults shelf.old) (D.faults shelf.new)
        ((libraries : List ℕ) (lines : List (List ℕ)) → cutter.libraries.items ≡ libraries → AtHead (head_of runs) (bytes_to_come runs (S.left src.old)) lines → AreTooLarge libraries lines)) }
{
    let mut runs = runs;
    let mut cutter = cutter;
    for _ in 0..u32::MAX {
        let Some(run) = runs.next(src)? else {
            return cutter.finish(shelf);
        };
        cutter.take_run(run.as_slice(), shelf)?;
    }
    Err(Stop::TooLarge)
}
