ghost use Rattle.std.specs.Prelude.{◌≡◌, ◌^◌, ◌<◌, IfOk, OnOk, length, map};
ghost use Rattle.std.specs.Option.{option_map};
ghost use Rattle.algolw_typing.specs.Actuals as actuals;
ghost use Rattle.algolw_typing.specs.Meanings as meanings;
ghost use Rattle.algolw_typing.specs.Verdicts as verdicts;
ghost use Rattle.typing_rules.specs.View.{value_type, phrase_type, verdict};
ghost use Rattle.typing_rules.specs.MeaningView as view;

use crate::conditions::{fault, integer, unless};
use crate::meanings::{
    FormalType, Meaning, Part, array_row, class_row, field_row, gives_of, no_star, right_number,
    standard_row,
};
use crate::types::{PhraseType, ValueType};
use crate::verdicts::{NoType, Verdict};
use bumpalo::Bump;
use std::alloc::AllocError;
use value_ops::{Diagnostic, Place};

/// How the parts of a list are read.
#[derive(Clone, Copy)]
pub enum Reading<'a> {
    /// As phrases.
    AsPhrases,
    /// As actuals of a procedure, of which these formals are left.
    ForFormals(&'a [FormalType<'a>]),
    /// As actuals of a procedure formal, which compares when it is called.
    AtRunTime,
}

/// What is wanted of the next part.
#[derive(Clone, Copy)]
pub enum Wanted<'a> {
    /// A phrase.
    Phrase,
    /// An actual that stands for this formal.
    Formal(FormalType<'a>),
    /// An actual more than there are formals.
    Nothing,
    /// An actual of a procedure formal.
    Anything,
}

/// Silent where a part has no type.
pub fn all_read(parts: &[Part<'_>]) -> Result<(), NoType>
    ensures { (row : verdicts.Verdict) → view.after result (λ _. row)
        ≡ meanings.all_read (map view.part parts.now) row }
{
    for part in parts {
        if let Part::Typeless = part {
            return Err(NoType::Silent);
        }
    }
    Ok(())
}

// ---- table A: an actual against the formal that it stands for

/// VALUE, and by name.
fn value_actual(place: Place, formal: ValueType<'_>, part: Part<'_>) -> Result<(), NoType>
    ensures { (row : verdicts.Verdict) → view.after result (λ _. row)
        ≡ actuals.value_actual place (value_type formal.entry) (view.part part.entry) row }
{
    match part {
        Part::Value(_, given) => unless(given.fits(formal), Diagnostic::TYPE_DOES_NOT_FIT, place),
        Part::Statement(_) => fault(place, Diagnostic::VALUE_NEEDED),
        Part::Typeless => Err(NoType::Silent),
        _ => fault(place, Diagnostic::WRONG_KIND_OF_ACTUAL),
    }
}

/// RESULT.
fn result_actual(place: Place, formal: ValueType<'_>, part: Part<'_>) -> Result<(), NoType>
    ensures { (row : verdicts.Verdict) → view.after result (λ _. row)
        ≡ actuals.result_actual place (value_type formal.entry) (view.part part.entry) row }
{
    match part {
        Part::Statement(_) => fault(place, Diagnostic::VALUE_NEEDED),
        Part::Value(is_variable, given) => {
            unless(is_variable, Diagnostic::NOT_A_VARIABLE, place)?;
            unless(formal.fits(given), Diagnostic::TYPE_DOES_NOT_FIT, place)
        }
        Part::Typeless => Err(NoType::Silent),
        _ => fault(place, Diagnostic::WRONG_KIND_OF_ACTUAL),
    }
}

/// VALUE RESULT.
fn value_result_actual(place: Place, formal: ValueType<'_>, part: Part<'_>) -> Result<(), NoType>
    ensures { (row : verdicts.Verdict) → view.after result (λ _. row)
        ≡ actuals.value_result_actual place (value_type formal.entry) (view.part part.entry) row }
{
    match part {
        Part::Statement(_) => fault(place, Diagnostic::VALUE_NEEDED),
        Part::Value(is_variable, given) => {
            unless(is_variable, Diagnostic::NOT_A_VARIABLE, place)?;
            unless(
                given.fits(formal) && formal.fits(given),
                Diagnostic::TYPE_DOES_NOT_FIT,
                place,
            )
        }
        Part::Typeless => Err(NoType::Silent),
        _ => fault(place, Diagnostic::WRONG_KIND_OF_ACTUAL),
    }
}

/// ARRAY.
fn array_actual(
    place: Place,
    formal: ValueType<'_>,
    dimensions: u32,
    part: Part<'_>,
) -> Result<(), NoType>
    ensures { (row : verdicts.Verdict) → view.after result (λ _. row)
        ≡ actuals.array_actual place (value_type formal.entry) dimensions (view.part part.entry) row }
{
    match part {
        Part::Array(element, given) => {
            unless(
                dimensions == given,
                Diagnostic::WRONG_NUMBER_OF_PARTS,
                place,
            )?;
            unless(
                element.is_same(formal),
                Diagnostic::TYPE_DOES_NOT_FIT,
                place,
            )
        }
        Part::Typeless => Err(NoType::Silent),
        _ => fault(place, Diagnostic::WRONG_KIND_OF_ACTUAL),
    }
}

/// PROCEDURE without type.
fn statement_actual(place: Place, part: Part<'_>) -> Result<(), NoType>
    ensures { (row : verdicts.Verdict) → view.after result (λ _. row)
        ≡ actuals.statement_actual place (view.part part.entry) row }
{
    match part {
        Part::Statement(_) | Part::Procedure(None) => Ok(()),
        Part::Value(_, _) => fault(place, Diagnostic::STATEMENT_NEEDED),
        Part::Typeless => Err(NoType::Silent),
        _ => fault(place, Diagnostic::WRONG_KIND_OF_ACTUAL),
    }
}

/// PROCEDURE with a type.
fn function_actual(place: Place, formal: ValueType<'_>, part: Part<'_>) -> Result<(), NoType>
    ensures { (row : verdicts.Verdict) → view.after result (λ _. row)
        ≡ actuals.function_actual place (value_type formal.entry) (view.part part.entry) row }
{
    match part {
        Part::Value(_, given) => unless(given.fits(formal), Diagnostic::TYPE_DOES_NOT_FIT, place),
        Part::Statement(_) => fault(place, Diagnostic::VALUE_NEEDED),
        Part::Procedure(Some(given)) => unless(
            given.is_same(formal),
            Diagnostic::TYPE_DOES_NOT_FIT,
            place,
        ),
        Part::Typeless => Err(NoType::Silent),
        _ => fault(place, Diagnostic::WRONG_KIND_OF_ACTUAL),
    }
}

/// An actual against its formal.
fn actual_fits(place: Place, formal: FormalType<'_>, part: Part<'_>) -> Result<(), NoType>
    ensures { (row : verdicts.Verdict) → view.after result (λ _. row)
        ≡ actuals.table_a place (view.formal_type formal.entry) (view.part part.entry) row }
{
    match formal {
        FormalType::ByName(formal) | FormalType::ByValue(formal) => value_actual(
            place, formal, part,
        ),
        FormalType::ByResult(formal) => result_actual(place, formal, part),
        FormalType::ByValueResult(formal) => value_result_actual(place, formal, part),
        FormalType::Array(element, dimensions) => array_actual(place, element, dimensions, part),
        FormalType::Procedure(None) => statement_actual(place, part),
        FormalType::Procedure(Some(formal)) => function_actual(place, formal, part),
    }
}

/// Each actual against its formal, one after the other.
fn actuals_fit(place: Place, formals: &[FormalType<'_>], parts: &[Part<'_>]) -> Result<(), NoType>
    ensures { (row : verdicts.Verdict) → view.after result (λ _. row)
        ≡ actuals.actuals_fit place (map view.formal_type formals.now) (map view.part parts.now) row }
{
    for (formal, part) in formals.iter().zip(parts) {
        actual_fits(place, *formal, *part)?;
    }
    Ok(())
}

/// A procedure with a list, at the name.
fn call_row<'a>(
    place: Place,
    result_type: Option<ValueType<'a>>,
    formals: &[FormalType<'a>],
    parts: &[Part<'a>],
) -> Verdict<'a>
    ensures { verdict result ≡ actuals.call_row place (option_map value_type result_type.entry)
        (map view.formal_type formals.now) (map view.part parts.now) }
{
    no_star(place, parts)?;
    right_number(place, formals.len(), parts)?;
    actuals_fit(place, formals, parts)?;
    Ok(gives_of(result_type))
}

/// A procedure formal with a list, at the name.
fn formal_call_row<'a>(
    place: Place,
    result_type: Option<ValueType<'a>>,
    parts: &[Part<'a>],
) -> Verdict<'a>
    ensures { verdict result ≡ actuals.formal_call_row place
        (option_map value_type result_type.entry) (map view.part parts.now) }
{
    no_star(place, parts)?;
    Ok(gives_of(result_type))
}

/// A name with a list that is no substring list, at the name. Its declaration is at the place `declared`.
pub fn list_row<'a>(
    arena: &'a Bump,
    place: Place,
    meaning: Meaning<'a>,
    declared: Place,
    parts: &[Part<'a>],
) -> Result<Verdict<'a>, AllocError>
    ensures { IfOk result (λ found.
        verdict found ≡ actuals.list_row place (view.meaning meaning.entry) declared (map view.part parts.now)) }
{
    match meaning {
        Meaning::Class(fields) => class_row(arena, place, fields, declared, parts),
        Meaning::Array(element, dimensions) => Ok(array_row(place, element, dimensions, parts)),
        Meaning::Procedure(result_type, formals) => Ok(call_row(
            place,
            result_type,
            formals,
            parts,
        )),
        Meaning::ProcedureFormal(result_type) => Ok(formal_call_row(place, result_type, parts)),
        Meaning::Field(class, field) => Ok(field_row(place, class, field, parts)),
        Meaning::Standard(standard) => Ok(standard_row(place, standard, parts)),
        Meaning::Variable(_) | Meaning::Label | Meaning::Control => Ok(fault(
            place,
            Diagnostic::NAME_NOT_USED_SO,
        )),
    }
}

// ---- how an actual is read

impl<'a> Reading<'a> {
    /// What is wanted of the next part.
    pub fn wanted(self) -> Wanted<'a>
        ensures { view.wanted result ≡ actuals.wanted (view.reading self.entry) }
    {
        match self {
            Reading::AsPhrases => Wanted::Phrase,
            Reading::ForFormals([]) => Wanted::Nothing,
            Reading::ForFormals([formal, ..]) => Wanted::Formal(*formal),
            Reading::AtRunTime => Wanted::Anything,
        }
    }

    /// How the parts behind the next one are read.
    pub fn behind(self) -> Reading<'a>
        ensures { view.reading result ≡ actuals.behind (view.reading self.entry) }
    {
        match self {
            Reading::ForFormals([_, formals @ ..]) => Reading::ForFormals(formals),
            _ => self,
        }
    }
}

/// A phrase in a list, or a part without type.
pub fn phrase_part<'a>(is_variable: bool, gives: Option<PhraseType<'a>>) -> Part<'a>
    ensures { view.part result ≡ actuals.phrase_part is_variable (option_map phrase_type gives.entry) }
{
    match gives {
        Some(PhraseType::Statement) => Part::Statement(is_variable),
        Some(PhraseType::Value(of)) => Part::Value(is_variable, of),
        None => Part::Typeless,
    }
}

/// A name alone that is read as a phrase: its row gives the verdict.
fn name_as_phrase<'a>(meaning: Meaning<'a>, found: Verdict<'a>) -> Part<'a>
    ensures { view.part result ≡ actuals.phrase_part
        (actuals.is_variable_name (view.meaning meaning.entry)) (verdicts.type_of (verdict found.entry)) }
{
    phrase_part(meaning.is_variable_name(), found.ok())
}

/// A procedure's name alone: read as a procedure where one is wanted, and as a phrase otherwise.
fn procedure_name<'a>(
    is_wanted: bool,
    result_type: Option<ValueType<'a>>,
    formals: &[FormalType<'a>],
) -> Part<'a>
    ensures { view.part result ≡ actuals.procedure_name is_wanted
        (option_map value_type result_type.entry) (map view.formal_type formals.now) }
{
    if is_wanted {
        Part::Procedure(result_type)
    } else if formals.is_empty() {
        phrase_part(false, Some(gives_of(result_type)))
    } else {
        Part::WithFormals
    }
}

impl<'a> FormalType<'a> {
    /// Whether it is a PROCEDURE.
    fn wants_procedure(self) -> bool
        ensures { result ≡ actuals.wants_procedure (view.formal_type self.entry) }
    {
        matches!(self, FormalType::Procedure(_))
    }

    /// A name alone as an actual that stands for this formal.
    fn read_name(self, meaning: Meaning<'a>, found: Verdict<'a>) -> Part<'a>
        ensures { view.part result ≡ actuals.formal_name
            (view.formal_type self.entry) (view.meaning meaning.entry) (verdict found.entry) }
    {
        match meaning {
            Meaning::Array(element, dimensions) => Part::Array(element, dimensions),
            Meaning::Procedure(result_type, formals) => {
                procedure_name(self.wants_procedure(), result_type, formals)
            }
            Meaning::ProcedureFormal(result_type) => {
                procedure_name(self.wants_procedure(), result_type, &[])
            }
            _ => name_as_phrase(meaning, found),
        }
    }
}

impl<'a> Wanted<'a> {
    /// A name alone as a part: its row as a phrase gives the verdict.
    pub fn read_name(self, meaning: Meaning<'a>, found: Verdict<'a>) -> Part<'a>
        ensures { view.part result ≡ actuals.name_read
            (view.wanted self.entry) (view.meaning meaning.entry) (verdict found.entry) }
    {
        match (self, meaning) {
            (Wanted::Formal(formal), _) => formal.read_name(meaning, found),
            (Wanted::Nothing | Wanted::Anything, Meaning::Array(_, _) | Meaning::Procedure(_, _)) =>
                Part::NotRead,
            (Wanted::Anything, Meaning::ProcedureFormal(_)) => Part::NotRead,
            _ => name_as_phrase(meaning, found),
        }
    }

    /// Whether an array with this list is read as an array, since it is an actual.
    pub fn is_subarray(self, parts: &[Part<'a>]) -> bool
        ensures { result ≡ actuals.is_subarray (view.wanted self.entry) (map view.part parts.now) }
    {
        !matches!(self, Wanted::Phrase) && has_star(parts)
    }
}

// ---- subarrays

/// Whether a part is a `*`.
fn has_star(parts: &[Part<'_>]) -> bool
    ensures { result ≡ actuals.has_star (map view.part parts.now) }
{
    for part in parts {
        if let Part::Star = part {
            return true;
        }
    }
    false
}

/// How many parts are a `*`.
fn stars(parts: &[Part<'_>]) -> u32
    requires { length parts.now < 2 ^ 32 }
    ensures { result ≡ actuals.stars (map view.part parts.now) }
{
    let mut stars = 0;
    for part in parts {
        if let Part::Star = part {
            stars += 1;
        }
    }
    stars
}

/// 35, 37 a part that is no `*` and no INTEGER.
fn subscripts(place: Place, parts: &[Part<'_>]) -> Result<(), NoType>
    ensures { (row : verdicts.Verdict) → view.after result (λ _. row)
        ≡ actuals.subscripts place (map view.part parts.now) row }
{
    for part in parts {
        match part {
            Part::Star => {}
            Part::Statement(_) | Part::Setting => return fault(place, Diagnostic::VALUE_NEEDED),
            Part::Value(_, of) => integer(place, PhraseType::Value(*of))?,
            _ => return Err(NoType::Silent),
        }
    }
    Ok(())
}

/// A subarray, at the name of an array of so many dimensions.
pub fn subarray_row<'a>(place: Place, dimensions: u32, parts: &[Part<'a>]) -> Verdict<'a>
    ensures row { verdict result ≡ actuals.subarray_row place dimensions (map view.part parts.now) }
    ensures number { OnOk result (length parts.now ≡ dimensions) }
{
    all_read(parts)?;
    right_number(place, dimensions as usize, parts)?;
    subscripts(place, parts)?;
    Ok(PhraseType::Statement)
}

/// A subarray as a part, by the verdict of its row. It has as many dimensions as stars.
pub fn subarray_part<'a>(
    wanted: Wanted<'a>,
    element: ValueType<'a>,
    parts: &[Part<'a>],
    found: Verdict<'a>,
) -> Part<'a>
    requires { OnOk found (length parts.now < 2 ^ 32) }
    ensures { view.part result ≡ actuals.subarray_part
        (view.wanted wanted.entry) (value_type element.entry) (map view.part parts.now) (verdict found.entry) }
{
    match (wanted, found) {
        (_, Err(_)) => Part::Typeless,
        (Wanted::Anything, Ok(_)) => Part::NotRead,
        (_, Ok(_)) => Part::Array(element, stars(parts)),
    }
}
