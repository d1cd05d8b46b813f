ghost use Rattle.std.specs.Prelude.{◌≡◌, ◌∷◌, [], List, IfOk, length, map};
ghost use Rattle.algolw_typing.specs.Scopes.{written};
ghost use Rattle.std.specs.Option.{option_map};
ghost use Rattle.algolw_typing.specs.Types as types;
ghost use Rattle.algolw_typing.specs.Meanings as meanings;
ghost use Rattle.algolw_typing.specs.Actuals as actuals;
ghost use Rattle.algolw_typing.specs.Verdicts as verdicts;
ghost use Rattle.typing_rules.specs.View.{value_type, phrase_type, verdict};
ghost use Rattle.typing_rules.specs.MeaningView as view;

use crate::class_set::ClassSet;
use crate::conditions::{fault, integer, unless, value};
use crate::types::{PhraseType, ValueType};
use crate::verdicts::{NoType, Verdict};
use algolw_tree::{Basic, Standard};
use bumpalo::Bump;
use std::alloc::AllocError;
use value_ops::{Diagnostic, Place};

/// A formal as calls see it.
#[derive(Clone, Copy)]
pub enum FormalType<'a> {
    /// By name.
    ByName(ValueType<'a>),
    /// VALUE.
    ByValue(ValueType<'a>),
    /// RESULT.
    ByResult(ValueType<'a>),
    /// VALUE RESULT.
    ByValueResult(ValueType<'a>),
    /// ARRAY, with its number of dimensions.
    Array(ValueType<'a>, u32),
    /// PROCEDURE, with or without type.
    Procedure(Option<ValueType<'a>>),
}

/// What a good declaration makes of a name.
#[derive(Clone, Copy)]
pub enum Meaning<'a> {
    /// A variable, or a formal that is one.
    Variable(ValueType<'a>),
    /// An array, with its number of dimensions.
    Array(ValueType<'a>, u32),
    /// A procedure, with its type and its formals.
    Procedure(Option<ValueType<'a>>, &'a [FormalType<'a>]),
    /// A formal that is a PROCEDURE, with its type.
    ProcedureFormal(Option<ValueType<'a>>),
    /// A record class, with the types of its fields.
    Class(&'a [ValueType<'a>]),
    /// A field of the class that is declared at this place.
    Field(Place, ValueType<'a>),
    /// A label.
    Label,
    /// A control name of a FOR.
    Control,
    /// A standard procedure, function or variable.
    Standard(Standard),
}

/// A part of a list behind a name, as it is read.
#[derive(Clone, Copy)]
pub enum Part<'a> {
    /// A `*`.
    Star,
    /// A phrase that is a statement. Whether it is a variable is kept, though none is.
    Statement(bool),
    /// An assignment to a standard variable, in a list of phrases.
    Setting,
    /// A phrase with a value of a type: whether it is a variable.
    Value(bool, ValueType<'a>),
    /// An array, or a subarray, which has as many dimensions as stars.
    Array(ValueType<'a>, u32),
    /// The name alone of a procedure or of a procedure formal, read as a procedure.
    Procedure(Option<ValueType<'a>>),
    /// The name alone of a procedure with formals, where no procedure is wanted.
    WithFormals,
    /// An actual of which nothing is asked, or only when the call is made.
    NotRead,
    /// A part without type.
    Typeless,
}

impl<'a> Meaning<'a> {
    /// Whether a phrase that this name begins, and that has a type, is a variable.
    pub fn is_variable_name(self) -> bool
        ensures { result ≡ actuals.is_variable_name (view.meaning self.entry) }
    {
        matches!(
            self,
            Meaning::Variable(_)
                | Meaning::Array(_, _)
                | Meaning::Field(_, _)
                | Meaning::Standard(Standard::Variable(_))
        )
    }
}

/// What a phrase gives that has a type of values, or none.
pub fn gives_of<'a>(result_type: Option<ValueType<'a>>) -> PhraseType<'a>
    ensures { phrase_type result ≡ meanings.gives_of (option_map value_type result_type.entry) }
{
    match result_type {
        None => PhraseType::Statement,
        Some(value_type) => PhraseType::Value(value_type),
    }
}

/// The reference to the class that is declared at this place alone.
fn reference_to<'a>(arena: &'a Bump, declared: Place) -> Result<PhraseType<'a>, AllocError>
    ensures { IfOk result (λ g. phrase_type g ≡ types.Simple (types.Reference (declared ∷ []))) }
{
    Ok(PhraseType::Value(ValueType::Reference(ClassSet::one(arena, declared)?)))
}

/// A name without list, and no actual. Its declaration is at the place `declared`.
pub fn alone_row<'a>(
    arena: &'a Bump,
    place: Place,
    meaning: Meaning<'a>,
    declared: Place,
) -> Result<Verdict<'a>, AllocError>
    ensures { IfOk result (λ found. verdict found ≡ meanings.alone_row place (view.meaning meaning.entry) declared) }
{
    Ok(match meaning {
        Meaning::Variable(value_type) => Ok(PhraseType::Value(value_type)),
        Meaning::Procedure(result_type, []) | Meaning::ProcedureFormal(result_type) => {
            Ok(gives_of(result_type))
        }
        Meaning::Class(_) => Ok(reference_to(arena, declared)?),
        Meaning::Control | Meaning::Standard(Standard::MaxInteger | Standard::Variable(_)) => {
            Ok(PhraseType::Value(ValueType::Integer))
        }
        Meaning::Procedure(_, _) | Meaning::Standard(_) => {
            fault(place, Diagnostic::WRONG_NUMBER_OF_PARTS)
        }
        Meaning::Array(_, _) | Meaning::Field(_, _) | Meaning::Label => {
            fault(place, Diagnostic::NAME_NOT_USED_SO)
        }
    })
}

/// 41 a substring list: given where its start, which is a part of the name with its list, has a type.
fn no_base<'a>(place: Place, start: Option<PhraseType<'a>>) -> Verdict<'a>
    ensures { verdict result ≡ meanings.no_base place (option_map phrase_type start.entry) }
{
    match start {
        Some(_) => fault(place, Diagnostic::NAME_NOT_USED_SO),
        None => Err(NoType::Silent),
    }
}

/// The base of a substring list that follows a name directly.
pub fn base_row<'a>(
    place: Place,
    meaning: Meaning<'a>,
    start: Option<PhraseType<'a>>,
) -> Verdict<'a>
    ensures { verdict result ≡ meanings.base_row place
        (view.meaning meaning.entry) (option_map phrase_type start.entry) }
{
    match meaning {
        Meaning::Variable(value_type)
        | Meaning::Procedure(Some(value_type), [])
        | Meaning::ProcedureFormal(Some(value_type)) => Ok(PhraseType::Value(value_type)),
        Meaning::Control | Meaning::Standard(Standard::MaxInteger | Standard::Variable(_)) => {
            Ok(PhraseType::Value(ValueType::Integer))
        }
        Meaning::Label => fault(place, Diagnostic::NAME_NOT_USED_SO),
        Meaning::Array(_, _)
        | Meaning::Procedure(_, _)
        | Meaning::ProcedureFormal(_)
        | Meaning::Class(_)
        | Meaning::Field(_, _)
        | Meaning::Standard(_) => no_base(place, start),
    }
}

/// A substring list, at its `(`: of this length, as it is written.
pub fn part_row<'a>(
    place: Place,
    length: i32,
    base: PhraseType<'a>,
    start: PhraseType<'a>,
) -> Verdict<'a>
    ensures { verdict result ≡ meanings.part_row place
        (written length) (phrase_type base.entry) (phrase_type start.entry) }
{
    integer(place, start)?;
    let PhraseType::Value(ValueType::Str(most)) = base else {
        return fault(place, Diagnostic::OPERATOR_DOES_NOT_FIT);
    };
    if length < 1 {
        return fault(place, Diagnostic::NUMBER_OUT_OF_RANGE);
    }
    let length = length as u32;
    unless(length <= most, Diagnostic::NUMBER_OUT_OF_RANGE, place)?;
    Ok(PhraseType::Value(ValueType::Str(length)))
}

/// 40 a `*`.
pub(crate) fn no_star(place: Place, parts: &[Part<'_>]) -> Result<(), NoType>
    ensures { (row : verdicts.Verdict) → view.after result (λ _. row)
        ≡ meanings.no_star place (map view.part parts.now) row }
{
    for part in parts {
        if let Part::Star = part {
            return fault(place, Diagnostic::WRONG_KIND_OF_ACTUAL);
        }
    }
    Ok(())
}

/// 39 unless there are so many parts.
pub(crate) fn right_number(place: Place, number: usize, parts: &[Part<'_>]) -> Result<(), NoType>
    ensures { (row : verdicts.Verdict) → view.after result (λ _. row)
        ≡ meanings.right_number place number (map view.part parts.now) row }
{
    unless(
        number == parts.len(),
        Diagnostic::WRONG_NUMBER_OF_PARTS,
        place,
    )
}

/// What a phrase in a list gives; a setting is a statement.
fn of_phrase<'a>(part: Part<'a>) -> Result<PhraseType<'a>, NoType>
    ensures { (row : types.Gives → verdicts.Verdict) → view.after result (λ g. row (phrase_type g))
        ≡ meanings.of_phrase (view.part part.entry) row }
{
    match part {
        Part::Statement(_) | Part::Setting => Ok(PhraseType::Statement),
        Part::Value(_, of) => Ok(PhraseType::Value(of)),
        _ => Err(NoType::Silent),
    }
}

/// 35, 37 a part that is no INTEGER.
fn integers(place: Place, parts: &[Part<'_>]) -> Result<(), NoType>
    ensures { (row : verdicts.Verdict) → view.after result (λ _. row)
        ≡ meanings.ints_read place (map view.part parts.now) row }
{
    for part in parts {
        integer(place, of_phrase(*part)?)?;
    }
    Ok(())
}

/// An array with a list, at the name.
pub(crate) fn array_row<'a>(
    place: Place,
    element: ValueType<'a>,
    dimensions: u32,
    parts: &[Part<'a>],
) -> Verdict<'a>
    ensures { verdict result ≡ meanings.array_row place
        (value_type element.entry) dimensions (map view.part parts.now) }
{
    let number = dimensions as usize;
    no_star(place, parts)?;
    right_number(place, number, parts)?;
    integers(place, parts)?;
    Ok(PhraseType::Value(element))
}

/// 35, 37 a part whose value does not fit its field.
fn field_values(place: Place, fields: &[ValueType<'_>], parts: &[Part<'_>]) -> Result<(), NoType>
    ensures { (row : verdicts.Verdict) → view.after result (λ _. row)
        ≡ meanings.field_values place (map value_type fields.now) (map view.part parts.now) row }
{
    for (field, part) in fields.iter().zip(parts) {
        let given = value(place, of_phrase(*part)?)?;
        unless(given.fits(*field), Diagnostic::TYPE_DOES_NOT_FIT, place)?;
    }
    Ok(())
}

/// Whether the parts of a list are such as the fields of a class ask for.
fn fields_given(place: Place, fields: &[ValueType<'_>], parts: &[Part<'_>]) -> Result<(), NoType>
    ensures { (row : verdicts.Verdict) → view.after result (λ _. row)
        ≡ meanings.no_star place (map view.part parts.now)
        (meanings.right_number place (length fields.now) (map view.part parts.now)
        (meanings.field_values place (map value_type fields.now) (map view.part parts.now) row)) }
{
    no_star(place, parts)?;
    right_number(place, fields.len(), parts)?;
    field_values(place, fields, parts)
}

/// A class with a list, at the name. Its declaration is at the place `declared`.
pub(crate) fn class_row<'a>(
    arena: &'a Bump,
    place: Place,
    fields: &[ValueType<'a>],
    declared: Place,
    parts: &[Part<'a>],
) -> Result<Verdict<'a>, AllocError>
    ensures { IfOk result (λ found.
        verdict found ≡ meanings.class_row place (map value_type fields.now) declared (map view.part parts.now)) }
{
    match fields_given(place, fields, parts) {
        Ok(()) => Ok(Ok(reference_to(arena, declared)?)),
        Err(why) => Ok(Err(why)),
    }
}

/// 39 unless there is one part: then what it gives.
fn one_part<'a>(place: Place, parts: &[Part<'a>]) -> Result<PhraseType<'a>, NoType>
    ensures { (row : types.Gives → verdicts.Verdict) → view.after result (λ g. row (phrase_type g))
        ≡ meanings.one_part place (map view.part parts.now) row }
{
    match parts {
        [part] => of_phrase(*part),
        _ => fault(place, Diagnostic::WRONG_NUMBER_OF_PARTS),
    }
}

/// Whether a type is a reference whose classes include this one.
fn refers_to(given: ValueType<'_>, class: Place) -> bool
    ensures { result ≡ view.refers_to (value_type given.entry) class }
{
    match given {
        ValueType::Reference(classes) => classes.has(class),
        _ => false,
    }
}

/// A field with a list, at the name.
#[tactic(auto, using(crate::proofs::Rests::field_of_refers))]
pub(crate) fn field_row<'a>(
    place: Place,
    class: Place,
    field: ValueType<'a>,
    parts: &[Part<'a>],
) -> Verdict<'a>
    ensures { verdict result ≡ meanings.field_row place class (value_type field.entry) (map view.part parts.now) }
{
    no_star(place, parts)?;
    let given = value(place, one_part(place, parts)?)?;
    unless(
        refers_to(given, class),
        Diagnostic::TYPE_DOES_NOT_FIT,
        place,
    )?;
    Ok(PhraseType::Value(field))
}

/// Whether any part is no setting.
fn some_placed(parts: &[Part<'_>]) -> bool
    ensures { result ≡ meanings.some_placed (map view.part parts.now) }
{
    for part in parts {
        if !matches!(part, Part::Setting) {
            return true;
        }
    }
    false
}

/// 35 a part that is a statement and no setting.
fn placed_value(place: Place, part: Part<'_>) -> Result<(), NoType>
    ensures { (row : verdicts.Verdict) → view.after result (λ _. row)
        ≡ view.placed_value place (view.part part.entry) row }
{
    match part {
        Part::Value(_, _) | Part::Setting => Ok(()),
        Part::Statement(_) => fault(place, Diagnostic::VALUE_NEEDED),
        _ => Err(NoType::Silent),
    }
}

/// 35 where any part is a statement and no setting.
fn values(place: Place, parts: &[Part<'_>]) -> Result<(), NoType>
    ensures { (row : List types.ValueType → verdicts.Verdict) →
        view.after result (λ _. row (view.values_of (map view.part parts.now)))
        ≡ meanings.values_read place (map view.part parts.now) row }
{
    for part in parts {
        placed_value(place, *part)?;
    }
    Ok(())
}

/// 38 where any part is no variable.
fn variables(place: Place, parts: &[Part<'_>]) -> Result<(), NoType>
    ensures { (row : List types.ValueType → verdicts.Verdict) →
        view.after result (λ _. row (view.values_of (map view.part parts.now)))
        ≡ meanings.variables_read place (map view.part parts.now) row }
{
    for part in parts {
        let Part::Value(true, _) = part else {
            return fault(place, Diagnostic::NOT_A_VARIABLE);
        };
    }
    Ok(())
}

/// 37 where the value of any part is a reference.
fn no_references(place: Place, parts: &[Part<'_>]) -> Result<(), NoType>
    ensures { (row : verdicts.Verdict) → view.after result (λ _. row)
        ≡ meanings.no_references place (view.values_of (map view.part parts.now)) row }
{
    for part in parts {
        if let Part::Value(_, ValueType::Reference(_)) = part {
            return fault(place, Diagnostic::TYPE_DOES_NOT_FIT);
        }
    }
    Ok(())
}

/// 37 where any part has a value that is no STRING of at least 80.
fn card_strings(place: Place, parts: &[Part<'_>]) -> Result<(), NoType>
    ensures { (row : verdicts.Verdict) → view.after result (λ _. row)
        ≡ meanings.card_strings place (view.values_of (map view.part parts.now)) row }
{
    for part in parts {
        match part {
            Part::Value(_, ValueType::Str(length)) => {
                unless(*length >= 80, Diagnostic::TYPE_DOES_NOT_FIT, place)?;
            }
            Part::Value(_, _) => return fault(place, Diagnostic::TYPE_DOES_NOT_FIT),
            _ => {}
        }
    }
    Ok(())
}

/// WRITE and WRITEON, at the name: some part is no setting.
fn write_row<'a>(place: Place, parts: &[Part<'a>]) -> Verdict<'a>
    ensures { verdict result ≡ meanings.write_row place (map view.part parts.now) }
{
    no_star(place, parts)?;
    unless(some_placed(parts), Diagnostic::WRONG_NUMBER_OF_PARTS, place)?;
    values(place, parts)?;
    no_references(place, parts)?;
    Ok(PhraseType::Statement)
}

/// READ and READON, at the name.
fn read_row<'a>(place: Place, parts: &[Part<'a>]) -> Verdict<'a>
    ensures { verdict result ≡ meanings.read_row place (map view.part parts.now) }
{
    no_star(place, parts)?;
    variables(place, parts)?;
    no_references(place, parts)?;
    Ok(PhraseType::Statement)
}

/// READCARD, at the name.
fn read_card_row<'a>(place: Place, parts: &[Part<'a>]) -> Verdict<'a>
    ensures { verdict result ≡ meanings.read_card_row place (map view.part parts.now) }
{
    no_star(place, parts)?;
    variables(place, parts)?;
    card_strings(place, parts)?;
    Ok(PhraseType::Statement)
}

/// The type of the values that an operation takes or gives.
fn basic_type<'a>(basic: Basic) -> ValueType<'a>
    ensures { value_type result ≡ meanings.basic_type basic }
{
    match basic {
        Basic::Integer => ValueType::Integer,
        Basic::Logical => ValueType::Logical,
        Basic::Bits => ValueType::Bits,
        Basic::Character => ValueType::Str(1),
    }
}

/// A function or IOCONTROL, at the name: of one value of the type that it takes.
#[tactic(auto, using(crate::proofs::Rests::same_basic))]
fn one_value_row<'a>(
    place: Place,
    taken: Basic,
    parts: &[Part<'a>],
    gives: PhraseType<'a>,
) -> Verdict<'a>
    ensures { verdict result ≡ meanings.one_value_row place taken (map view.part parts.now) (phrase_type gives.entry) }
{
    no_star(place, parts)?;
    let given = value(place, one_part(place, parts)?)?;
    unless(
        given.is_same(basic_type(taken)),
        Diagnostic::TYPE_DOES_NOT_FIT,
        place,
    )?;
    Ok(gives)
}

/// A standard name with a list, at the name.
pub(crate) fn standard_row<'a>(place: Place, standard: Standard, parts: &[Part<'a>]) -> Verdict<'a>
    ensures { verdict result ≡ meanings.standard_row place standard (map view.part parts.now) }
{
    match standard {
        Standard::Function(op) => {
            let gives = PhraseType::Value(basic_type(op.gives()));
            one_value_row(place, op.takes(), parts, gives)
        }
        Standard::Read { next: _ } => read_row(place, parts),
        Standard::ReadCard => read_card_row(place, parts),
        Standard::Write { first: _ } => write_row(place, parts),
        Standard::IoControl => one_value_row(place, Basic::Integer, parts, PhraseType::Statement),
        Standard::MaxInteger | Standard::Variable(_) => {
            fault(place, Diagnostic::NAME_NOT_USED_SO)
        }
    }
}
