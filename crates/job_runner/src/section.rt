ghost use Rattle.std.specs.Prelude.{◌≡◌, ◌≤◌, ◌++◌, ◌∷◌, List, IfOk, OnOk, codes, length};
ghost use Rattle.value_ops.specs.declared.places.Place as places;
ghost use Rattle.stack_code.specs.CodeView.{statement_view};
ghost use Rattle.stack_machine.specs.Desks.{shown_by};
ghost use Rattle.algolw_meaning.specs.Meaning.{diagnosed_body};
ghost use Rattle.algolw_meaning.specs.Running.{lines};
ghost use Rattle.algolw_meaning.specs.Texts.{diagnostic_lines, line};
ghost use Rattle.job_runner.specs.Counted.{IsCounted, IsWithinSteps};
ghost use Rattle.job_runner.specs.Sections as sections;

use crate::source::{first_statements, push_counted_source, push_source};
use crate::text;
use account_book::Counts;
use algolw_meaning::Ending;
use deck_reader::Job;
use stack_code::Code;
use stack_machine::{Desk, Outcome};
use std::alloc::{AllocError, Global};
use value_ops::{Card, Diagnostic, Place};

/// For how many bytes of a body there is room at first: for those of most bodies of short decks.
const ROOM: usize = 256;

/// The body of the section of a job whose deck has these diagnostics.
pub fn diagnosed_section(
    alloc: Global,
    deck: &[Card],
    faults: &[Diagnostic],
    counts: Counts,
) -> Result<Vec<u8>, AllocError>
    requires { length deck.now ≤ 2000 }
    ensures { IfOk result (λ v. v.items ≡ diagnosed_body deck.now faults.now counts) }
{
    let mut out = Vec::with_capacity(alloc, ROOM)?;
    push_source(&mut out, deck)?;
    push_diagnostics(&mut out, faults)?;
    text::push_sum_line(&mut out, counts)?;
    Ok(out)
}

/// Adds a line for each diagnostic.
fn push_diagnostics(out: &mut Vec<u8>, faults: &[Diagnostic]) -> Result<(), AllocError>
    ensures { OnOk result (out.new.items ≡ out.old.items ++ diagnostic_lines faults.now) }
{
    for fault in faults {
        text::push_diagnostic_line(out, *fault)?;
    }
    Ok(())
}

/// The body of the section of a job that was run at a desk with this outcome.
pub fn run_section(
    alloc: Global,
    job: &Job,
    code: &Code,
    desk: &Desk,
    outcome: Outcome,
) -> Result<Vec<u8>, AllocError>
    ghost begun: { List places.Place }
    requires cards { length job.now.deck ≤ 2000 }
    requires counted { IsCounted code.now.given.statements (shown_by desk.now).counts begun }
    requires within { IsWithinSteps begun }
    ensures { IfOk result (λ v. v.items ≡ sections.section job.now code.now begun outcome (shown_by desk.now)) }
{
    let firsts = first_statements(alloc, code, desk, job.deck.len())?;
    let mut out = Vec::with_capacity(alloc, ROOM)?;
    push_counted_source(&mut out, job.deck.as_slice(), firsts.as_slice())?;
    text::push_line(&mut out, b"OUTPUT")?;
    push_printed(&mut out, desk)?;
    push_ending(&mut out, code, outcome)?;
    push_dump(&mut out, desk, outcome)?;
    text::push_sum_line(&mut out, used(job, desk))?;
    Ok(out)
}

/// What a job used that was run at a desk.
pub fn used(job: &Job, desk: &Desk) -> Counts
    ensures { result ≡ sections.used job.now (shown_by desk.now) }
{
    Counts {
        cards: job.cards,
        steps: desk.steps(),
        lines: desk.line_count(),
    }
}

/// How a job ended that was run with this outcome.
pub fn ending_of(outcome: Outcome) -> Ending
    ensures { result ≡ sections.ending_of outcome }
{
    match outcome {
        Outcome::Normal => Ending::Normal,
        Outcome::Faulted(_, _) => Ending::Fault,
        Outcome::Limited(_, _) => Ending::Limit,
    }
}

/// Adds the lines that were printed.
fn push_printed(out: &mut Vec<u8>, desk: &Desk) -> Result<(), AllocError>
    ensures { OnOk result (out.new.items ≡ out.old.items ++ lines (shown_by desk.now).lines) }
{
    for number in 0..desk.line_count() {
        text::push_line(out, desk.line(number))?;
    }
    Ok(())
}

/// Adds the line that tells how the run ended, and in which statement.
fn push_ending(out: &mut Vec<u8>, code: &Code, outcome: Outcome) -> Result<(), AllocError>
    ensures { OnOk result (out.new.items ≡ out.old.items ++ line (sections.ending_text code.now outcome)) }
{
    match outcome {
        Outcome::Normal => text::push_line(out, b"ENDED NORMALLY"),
        Outcome::Faulted(fault, statement) => {
            let place = place_of(code, statement);
            text::push_numbered_line(out, b"FAULT", fault.number(), place, fault.text())
        }
        Outcome::Limited(limit, statement) => {
            let place = place_of(code, statement);
            text::push_numbered_line(out, b"LIMIT", limit.number(), place, limit.text())
        }
    }
}

/// The first token of a statement; on no card where the code has none of this number.
fn place_of(code: &Code, statement: u32) -> Place
    ensures { result ≡ statement_view code.now.given statement }
{
    if (statement as usize) < code.statement_count() {
        return code.statement_place(statement);
    }
    Place { card: 0, column: 0 }
}

/// Adds the dump, where the run didn't end normally.
fn push_dump(out: &mut Vec<u8>, desk: &Desk, outcome: Outcome) -> Result<(), AllocError>
    ensures { OnOk result (out.new.items
        ≡ out.old.items ++ lines (sections.dump_section outcome (shown_by desk.now).dump)) }
{
    match outcome {
        Outcome::Normal => Ok(()),
        Outcome::Faulted(_, _) | Outcome::Limited(_, _) => push_post_mortem(out, desk),
    }
}

/// Adds the dump and the line above it.
fn push_post_mortem(out: &mut Vec<u8>, desk: &Desk) -> Result<(), AllocError>
    ensures { OnOk result (out.new.items ≡ out.old.items ++ lines (codes "POST-MORTEM" ∷ (shown_by desk.now).dump)) }
{
    text::push_line(out, b"POST-MORTEM")?;
    for number in 0..desk.dump_count() {
        text::push_line(out, desk.dump(number))?;
    }
    Ok(())
}
