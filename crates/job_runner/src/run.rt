ghost use Rattle.std.specs.Prelude.{◌≡◌, ◌≢◌, ◌≤◌, [], None, IfOk, length};
ghost use Rattle.account_book.specs.Charges.{charge, reserve};
ghost use Rattle.algolw_scanner.specs.Laws.{IsDeck};
ghost use Rattle.stack_code.specs.CodeView.{code_view};
ghost use Rattle.stack_code.specs.Ending.{AlwaysEnds};
ghost use Rattle.stack_machine.specs.Desks.{IsPrepared, shown_by};
ghost use Rattle.stack_machine.specs.Runs.{ComesTo};
ghost use Rattle.algolw_meaning.specs.Meaning.{job_library, shown_diagnostics};
ghost use Rattle.algolw_meaning.specs.Running.{setting_of};
ghost use Rattle.algolw_meaning.specs.declared.ending.Ending.TheVariants as how;
ghost use Rattle.job_runner.specs.Compiled.{IsCodeOf};
ghost use Rattle.job_runner.specs.Shown.{ShowsRun};

use crate::deck::{Compiled, compile_job};
use crate::section::{diagnosed_section, ending_of, run_section, used};
use crate::shelf::Shelf;
use account_book::Counts;
use algolw_meaning::{Ended, Ending};
use deck_reader::Job;
use stack_code::Code;
use stack_machine::{Desk, Limits, Outcome, run};
use std::alloc::{AllocError, Global};
use std::sync::Arc;
use value_ops::Diagnostic;

/// Runs a job without a flaw at a desk, whatever that ran before. The desk then shows the job's steps and, where the job
/// isn't diagnosed, how often each statement was begun, the lines that were printed, and the dump. The job's charge is at
/// most its reserve. The library that the job names is prepared where it doesn't stand on the shelf yet, and stands there
/// then. Where memory is wanting, the desk and the shelf may be used again.
pub fn run_job(
    alloc: Global,
    desk: &mut Desk,
    shelf: &mut Shelf,
    job: &Arc<Job>,
) -> Result<Ended, AllocError>
    requires { job.now.value.flaw ≡ None }
    ensures same { IfOk result (λ e. e.job ≡ job.now.value) }
    ensures within { IfOk result (λ e. charge e.counts ≤ reserve e.job) }
    ensures steps { IfOk result (λ e. (shown_by desk.new).steps ≡ e.counts.steps) }
    ensures shown { IfOk result (λ e. e.ending ≢ how.Diagnosed → ShowsRun e.job (shown_by desk.new)) }
{
    match compile_job(alloc, shelf, &job.library, job.deck.as_slice())? {
        Compiled::Code(code) => run_code(alloc, desk, job, &code),
        Compiled::Diagnosed(faults) => diagnose(alloc, desk, job, faults.as_slice()),
    }
}

/// Runs a job by the code of its deck.
fn run_code(
    alloc: Global,
    desk: &mut Desk,
    job: &Arc<Job>,
    code: &Code,
) -> Result<Ended, AllocError>
    requires deck { IsDeck job.now.value.deck }
    requires few { length job.now.value.deck ≤ 1999 }
    requires most { job.now.value.steps ≤ 10000000 }
    requires code { IsCodeOf (job_library job.now.value) job.now.value.deck code.now }
    ensures same { IfOk result (λ e. e.job ≡ job.now.value) }
    ensures within { IfOk result (λ e. charge e.counts ≤ reserve e.job) }
    ensures steps { IfOk result (λ e. (shown_by desk.new).steps ≡ e.counts.steps) }
    ensures shown { IfOk result (λ e. ShowsRun e.job (shown_by desk.new)) }
{
    desk.prepare(code)?;
    let outcome = run_prepared(desk, job, code);
    let body = run_section(alloc, job, code, desk, outcome)?;
    let counts = used(job, desk);
    Ok(Ended::new(job.clone()?, body, counts, ending_of(outcome)))
}

/// Runs code at a desk that is prepared for it, with the job's data and limits.
fn run_prepared(desk: &mut Desk, job: &Job, code: &Code) -> Outcome
    requires prepared { IsPrepared code.now desk.old }
    requires ends { AlwaysEnds (code_view code.now) }
    ensures { ComesTo (setting_of job.now) code.now result (shown_by desk.new) }
{
    let limits = Limits {
        steps: job.steps,
        lines: job.lines,
    };
    run(desk, code, job.data_cards.as_slice(), limits)
}

/// Ends a job whose deck has these diagnostics. It takes no step.
fn diagnose(
    alloc: Global,
    desk: &mut Desk,
    job: &Arc<Job>,
    faults: &[Diagnostic],
) -> Result<Ended, AllocError>
    requires cards { length job.now.value.deck ≤ 2000 }
    requires some { faults.now ≢ [] }
    requires shown { faults.now ≡ shown_diagnostics (job_library job.now.value) job.now.value.deck }
    ensures same { IfOk result (λ e. e.job ≡ job.now.value) }
    ensures steps { IfOk result (λ e. (shown_by desk.new).steps ≡ e.counts.steps) }
    ensures diagnosed { IfOk result (λ e. e.ending ≡ how.Diagnosed) }
{
    desk.clear();
    let counts = Counts {
        cards: job.cards,
        steps: 0,
        lines: 0,
    };
    let body = diagnosed_section(alloc, job.deck.as_slice(), faults, counts)?;
    Ok(Ended::new(job.clone()?, body, counts, Ending::Diagnosed))
}
