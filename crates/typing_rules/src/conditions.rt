ghost use Rattle.std.specs.Prelude.{◌≡◌, List, map};
ghost use Rattle.algolw_typing.specs.Types as types;
ghost use Rattle.algolw_typing.specs.Verdicts as verdicts;
ghost use Rattle.typing_rules.specs.View.{value_type, phrase_type};
ghost use Rattle.typing_rules.specs.MeaningView.{after};
ghost use Rattle.typing_rules.specs.Parts.{values_of};

use crate::types::{PhraseType, ValueType};
use crate::verdicts::NoType;
use value_ops::{Diagnostic, Place};

/// The diagnostic of this number at a place.
pub(crate) fn fault<T>(place: Place, number: u8) -> Result<T, NoType>
    ensures { result ≡ Err (NoType.Fault (record { place = place; number = number })) }
{
    Err(NoType::Fault(Diagnostic { place, number }))
}

/// A fault, unless the test is true.
pub(crate) fn unless(holds: bool, number: u8, place: Place) -> Result<(), NoType>
    ensures { (row : verdicts.Verdict) → after result (λ _. row) ≡ verdicts.unless holds number place row }
{
    if holds { Ok(()) } else { fault(place, number) }
}

/// 35 where the part is a statement.
pub(crate) fn value<'a>(place: Place, gives: PhraseType<'a>) -> Result<ValueType<'a>, NoType>
    ensures { (row : types.ValueType → verdicts.Verdict) → after result (λ t. row (value_type t))
        ≡ verdicts.value place (phrase_type gives.entry) row }
{
    match gives {
        PhraseType::Value(value_type) => Ok(value_type),
        PhraseType::Statement => fault(place, Diagnostic::VALUE_NEEDED),
    }
}

/// 35 where the part is a statement, else 37 where it isn't INTEGER.
pub(crate) fn integer(place: Place, gives: PhraseType<'_>) -> Result<(), NoType>
    ensures { (row : verdicts.Verdict) → after result (λ _. row) ≡ verdicts.int place (phrase_type gives.entry) row }
{
    let value_type = value(place, gives)?;
    unless(
        matches!(value_type, ValueType::Integer),
        Diagnostic::TYPE_DOES_NOT_FIT,
        place,
    )
}

/// 36 unless a statement.
pub(crate) fn statement(place: Place, gives: PhraseType<'_>) -> Result<(), NoType>
    ensures { (row : verdicts.Verdict) → after result (λ _. row)
        ≡ verdicts.statement place (phrase_type gives.entry) row }
{
    match gives {
        PhraseType::Statement => Ok(()),
        PhraseType::Value(_) => fault(place, Diagnostic::STATEMENT_NEEDED),
    }
}

/// 35 where the part is a statement, else 37 where it isn't LOGICAL.
pub(crate) fn logical(place: Place, gives: PhraseType<'_>) -> Result<(), NoType>
    ensures { (row : verdicts.Verdict) → after result (λ _. row) ≡ verdicts.log place (phrase_type gives.entry) row }
{
    let value_type = value(place, gives)?;
    unless(
        matches!(value_type, ValueType::Logical),
        Diagnostic::TYPE_DOES_NOT_FIT,
        place,
    )
}

/// 35 where any part is a statement.
pub(crate) fn values(place: Place, parts: &[PhraseType]) -> Result<(), NoType>
    ensures { (row : List types.ValueType → verdicts.Verdict) →
        after result (λ _. row (values_of parts.now)) ≡ verdicts.all_values place (map phrase_type parts.now) row }
{
    for part in parts {
        value(place, *part)?;
    }
    Ok(())
}

/// 35 where the first part that isn't INTEGER is a statement, else 37.
pub(crate) fn integers(place: Place, parts: &[PhraseType]) -> Result<(), NoType>
    ensures { (row : verdicts.Verdict) → after result (λ _. row) ≡ verdicts.ints place (map phrase_type parts.now) row }
{
    for part in parts {
        integer(place, *part)?;
    }
    Ok(())
}

/// 36 where any part is no statement.
pub(crate) fn statements(place: Place, parts: &[PhraseType]) -> Result<(), NoType>
    ensures { (row : verdicts.Verdict) → after result (λ _. row)
        ≡ verdicts.all_statements place (map phrase_type parts.now) row }
{
    for part in parts {
        statement(place, *part)?;
    }
    Ok(())
}
