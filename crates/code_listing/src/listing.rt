ghost use Rattle.std.specs.Prelude.{◌<◌, length};
ghost use Rattle.algolw_scanner.specs.Laws.{IsDeck};
ghost use Rattle.stack_code.specs.CodeView.{GivenFits};

use crate::instructions::push_instruction;
use crate::texts::{push_bytes, push_place};
use deck_reader::{Card, Flaw, Job};
use job_runner::{Compiled, compile_deck};
use stack_code::{Code, Coded};
use std::alloc::{AllocError, Global};
use value_ops::{Diagnostic, Place};

/// Where an instruction stands that is in no statement.
const NOWHERE: Place = Place { card: 0, column: 0 };

/// The listing of a job.
pub fn job_listing(alloc: Global, job: &Job) -> Result<String, AllocError> {
    let mut out = String::new(alloc);
    let number = job.number;
    write!(out, "JOB {number}")?;
    push_bytes(&mut out, " ", job.name.as_slice())?;
    out.push('\n')?;
    match job.flaw {
        Some(flaw) => push_flaw(&mut out, flaw)?,
        None => push_deck(alloc, &mut out, job.deck.as_slice())?,
    }
    out.push('\n')?;
    Ok(out)
}

/// Writes why a job is refused.
fn push_flaw(out: &mut String, flaw: Flaw) -> Result<(), AllocError> {
    let number = flaw.number();
    write!(out, "FLAW {number}")?;
    push_bytes(out, ": ", flaw.text())?;
    out.push('\n')
}

/// Writes the cards of a deck, and its code or its diagnostics.
fn push_deck(alloc: Global, out: &mut String, deck: &[Card]) -> Result<(), AllocError>
    requires { IsDeck deck.now }
{
    for (index, card) in deck.iter().enumerate() {
        let number = index + 1;
        write!(out, "{number:>4}")?;
        push_bytes(out, "  ", card.as_slice())?;
        out.push('\n')?;
    }
    match compile_deck(alloc, deck)? {
        Compiled::Code(code) => push_code(out, &code),
        Compiled::Diagnosed(faults) => push_faults(out, faults.as_slice()),
    }
}

/// Writes diagnostics.
fn push_faults(out: &mut String, faults: &[Diagnostic]) -> Result<(), AllocError> {
    for fault in faults {
        let number = fault.number;
        write!(out, "DIAGNOSTIC {number}")?;
        push_place(out, " AT ", fault.place)?;
        push_bytes(out, ": ", fault.text())?;
        out.push('\n')?;
    }
    Ok(())
}

/// Writes the instructions of a code, and how many marks a text may have in each other.
fn push_code(out: &mut String, code: &Code) -> Result<(), AllocError> {
    let marks = code.marks();
    let Ok(count) = u32::try_from(code.instruction_count()) else {
        return Err(AllocError);
    };
    for number in 0..count {
        push_coded(out, code, number)?;
    }
    write!(out, "MARKS {marks}\n")
}

/// Writes an instruction behind its number and its statement.
fn push_coded(out: &mut String, code: &Code, number: u32) -> Result<(), AllocError>
    requires whole { GivenFits code.now.given }
    requires there { number < length code.now.instructions }
{
    let Coded { at, does } = code.coded(number);
    let Place { card, column } = statement_at(code, at);
    write!(out, "{number:>5} {card:>4},{column:<3}")?;
    push_instruction(out, code, does)?;
    out.push('\n')
}

/// The first token of a statement, by its number.
fn statement_at(code: &Code, at: u32) -> Place {
    if (at as usize) < code.statement_count() {
        code.statement_place(at)
    } else {
        NOWHERE
    }
}
