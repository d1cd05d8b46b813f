ghost use Rattle.std.specs.Prelude.{◌≡◌, ◌≤◌, List, ℕ, IfOk, IsErrOf, length};
ghost use Rattle.std.specs.List.{AllByRecursion, before_first};
ghost use Rattle.deck_reader.specs.Batch.{Run};
ghost use Rattle.night_shares.specs.Batches.{lone_batch};
ghost use Rattle.night_shares.specs.Lines.{ends_job, run_lines, text_of_lines};
ghost use Rattle.night_shares.specs.Reading.{IsInLine};
ghost use Rattle.night_shares.specs.Running.{IsRun};

use crate::words::ends_job;
use deck_reader::{Batch, FeedError, Listed, Reader, split_once};
use std::alloc::Global;

/// The batch of a run of lines, where no account is open: its one job, and its stray cards.
pub fn read_run(alloc: Global, run: &[u8]) -> Result<Batch, FeedError>
    requires { length run.now ≤ 4194304 }
    ensures batch { (lines : Run) → IsRun lines → run.now ≡ text_of_lines (run_lines lines) → IfOk result (λ batch. batch ≡ lone_batch lines) }
    ensures fits { (lines : Run) → IsRun lines → run.now ≡ text_of_lines (run_lines lines) → IsErrOf result FeedError.TooLarge → ⊥ }
{
    let mut reader = Reader::with_accounts(alloc, Listed::new(alloc))?;
    reader.feed(run)?;
    reader.finish()
}

/// The lines of a run's job: those up to the first that ends it.
pub fn job_lines(run: &[u8]) -> &[u8]
    ensures lines { (lines : List (List ℕ)) → AllByRecursion IsInLine lines → run.now ≡ text_of_lines lines →
        result.now ≡ text_of_lines (before_first ends_job lines) }
    ensures shorter { length result.now ≤ length run.now }
{
    let mut rest = run;
    while let Some((line, behind)) = split_once(rest, b'\n') {
        if ends_job(line) {
            return &run[..run.len() - rest.len()];
        }
        rest = behind;
    }
    run
}
