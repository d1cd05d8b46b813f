ghost use Rattle.std.specs.Prelude.{◌<◌, length};
ghost use Rattle.stack_code.specs.CodeView.{GivenFits};
ghost use Rattle.stack_code.specs.Limits.{FormalRuns, GivesRuns, KindRuns, ReadingRuns};

use crate::texts::{push_name, push_place, push_source, push_type, push_type_perhaps};
use algolw_tree::Gives;
use stack_code::{Code, Formal, FormalType, Reading, Source};
use std::alloc::AllocError;
use value_ops::SimpleType;

/// Writes the head of a procedure, by its number: `Procedure @12 INTEGER F (INTEGER VALUE X; INTEGER Y)`.
pub(crate) fn push_procedure(
    out: &mut String,
    code: &Code,
    head: u32,
    behind: u32,
) -> Result<(), AllocError>
    requires whole { GivenFits code.now.given }
    requires there { head < length code.now.added.procedures }
{
    let procedure = code.procedure(head);
    write!(out, "Procedure @{behind}")?;
    push_type_perhaps(out, code, " ", procedure.result)?;
    push_name(out, code, " ", procedure.name)?;
    out.push_str(" (")?;
    let mut front = "";
    for formal in &procedure.formals {
        out.push_str(front)?;
        push_formal(out, code, *formal)?;
        front = "; ";
    }
    out.push(')')
}

/// Writes a formal.
fn push_formal(out: &mut String, code: &Code, formal: Formal) -> Result<(), AllocError>
    requires whole { GivenFits code.now.given }
    requires runs { FormalRuns code.now.given formal }
{
    let Formal { name, is } = formal;
    match is {
        FormalType::ByName(kind) => push_typed(out, code, kind, " ", name),
        FormalType::Value(kind) => push_typed(out, code, kind, " VALUE ", name),
        FormalType::Result(kind) => push_typed(out, code, kind, " RESULT ", name),
        FormalType::ValueResult(kind) => push_typed(out, code, kind, " VALUE RESULT ", name),
        FormalType::Array { kind, dimensions } => push_array(out, code, kind, name, dimensions),
        FormalType::Procedure(None) => push_name(out, code, "PROCEDURE ", name),
        FormalType::Procedure(Some(kind)) => push_typed(out, code, kind, " PROCEDURE ", name),
    }
}

/// Writes a formal that has a type.
fn push_typed(
    out: &mut String,
    code: &Code,
    kind: SimpleType,
    passed: &str,
    name: u32,
) -> Result<(), AllocError>
    requires whole { GivenFits code.now.given }
    requires runs { KindRuns code.now.given kind }
    requires there { name < length code.now.given.names }
{
    push_type(out, code, "", kind)?;
    push_name(out, code, passed, name)
}

/// Writes a formal that is an array of so many dimensions.
fn push_array(
    out: &mut String,
    code: &Code,
    kind: SimpleType,
    name: u32,
    dimensions: u32,
) -> Result<(), AllocError>
    requires whole { GivenFits code.now.given }
    requires runs { KindRuns code.now.given kind }
    requires there { name < length code.now.given.names }
{
    push_typed(out, code, kind, " ARRAY ", name)?;
    write!(out, " ({dimensions})")
}

/// Writes the head of an actual's text, by its number: `Text @12 3,14 variable INTEGER`.
pub(crate) fn push_text(
    out: &mut String,
    code: &Code,
    head: u32,
    behind: u32,
) -> Result<(), AllocError>
    requires whole { GivenFits code.now.given }
    requires there { head < length code.now.added.texts }
{
    let text = code.text(head);
    write!(out, "Text @{behind}")?;
    push_place(out, " ", text.first)?;
    push_reading(out, code, text.reading)
}

/// Writes how an actual is read where it is compared.
fn push_reading(out: &mut String, code: &Code, reading: Reading) -> Result<(), AllocError>
    requires whole { GivenFits code.now.given }
    requires runs { ReadingRuns code.now.given reading }
{
    match reading {
        Reading::Phrase {
            is_variable: true,
            gives,
        } => push_gives(out, code, " variable ", gives),
        Reading::Phrase {
            is_variable: false,
            gives,
        } => push_gives(out, code, " phrase ", gives),
        Reading::Name(source) => push_source(out, " name ", source),
        Reading::Subarray { array, stars } => push_subarray_read(out, array, stars),
        Reading::Nothing => out.push_str(" nothing"),
    }
}

/// Writes what a phrase gives.
fn push_gives(out: &mut String, code: &Code, front: &str, gives: Gives) -> Result<(), AllocError>
    requires whole { GivenFits code.now.given }
    requires runs { GivesRuns code.now.given gives }
{
    match gives {
        Gives::Simple(kind) => push_type(out, code, front, kind),
        Gives::Statement => write!(out, "{front}statement"),
    }
}

/// Writes how a subarray is read: what stands for the array, and how many stars there are.
fn push_subarray_read(out: &mut String, array: Source, stars: u32) -> Result<(), AllocError> {
    push_source(out, " subarray ", array)?;
    write!(out, " {stars}")
}
