ghost use Rattle.std.specs.Prelude.{◌≡◌, IfOk, map};
ghost use Rattle.std.specs.Option.{option_map};
ghost use Rattle.algolw_typing.specs.Rows as rows;
ghost use Rattle.algolw_typing.specs.Types.{join_all};
ghost use Rattle.algolw_typing.specs.Typing.{assign_row};
ghost use Rattle.algolw_typing.specs.Verdicts as verdicts;
ghost use Rattle.typing_rules.specs.View.{phrase_type, value_type, verdict};
ghost use Rattle.typing_rules.specs.Lefts.{left_view};
ghost use Rattle.typing_rules.specs.Parts.{join_next, values_of};

use crate::conditions::{
    fault, integer, integers, logical, statement, statements, unless, value, values,
};
use crate::types::{PhraseType, ValueType};
use crate::verdicts::Verdict;
use algolw_tree::{Op, RelOp};
use bumpalo::Bump;
use std::alloc::AllocError;
use value_ops::{Diagnostic, Place};

/// What stands at the left of an assignment.
#[derive(Clone, Copy, Debug, PartialEq, Eq)]
pub enum Left {
    /// A variable.
    Variable,
    /// A control name, or a substring of one.
    Control,
    /// Neither.
    NoVariable,
}

/// A bound: its parts are INTEGER, the lower tested first, else 35 for a statement or 37.
pub fn bound_row<'a>(place: Place, lower: PhraseType<'a>, upper: PhraseType<'a>) -> Verdict<'a>
    ensures { verdict result ≡ rows.bound_row place (phrase_type lower.entry) (phrase_type upper.entry) }
{
    integer(place, lower)?;
    integer(place, upper)?;
    Ok(PhraseType::Statement)
}

/// A procedure: with no type stated, its body is a statement, else 36; else the body has a value, else 35, that fits the type, else 37.
pub fn procedure_row<'a>(
    place: Place,
    stated: Option<ValueType<'a>>,
    body: PhraseType<'a>,
) -> Verdict<'a>
    ensures { verdict result ≡ rows.procedure_row place (option_map value_type stated.entry) (phrase_type body.entry) }
{
    match stated {
        None => statement(place, body)?,
        Some(stated) => {
            if !value(place, body)?.fits(stated) {
                return fault(place, Diagnostic::TYPE_DOES_NOT_FIT);
            }
        }
    }
    Ok(PhraseType::Statement)
}

/// An item of a block, which gives what its phrase gives: one that isn't the last, or has a label, is a statement, else 36.
pub fn item_row<'a>(
    is_last: bool,
    is_labelled: bool,
    place: Place,
    phrase: PhraseType<'a>,
) -> Verdict<'a>
    ensures { verdict result ≡ rows.item_row is_last is_labelled place (phrase_type phrase.entry) }
{
    if !is_last || is_labelled {
        statement(place, phrase)?;
    }
    Ok(phrase)
}

/// The program: its block is a statement, else 36.
pub fn program_row<'a>(place: Place, block: PhraseType<'a>) -> Verdict<'a>
    ensures { verdict result ≡ rows.program_row place (phrase_type block.entry) }
{
    statement(place, block)?;
    Ok(PhraseType::Statement)
}

/// IF with no ELSE, a statement: the condition is LOGICAL, else 35 for a statement or 37; its branch is a statement, else 36.
pub fn if_row<'a>(place: Place, condition: PhraseType<'a>, then: PhraseType<'a>) -> Verdict<'a>
    ensures { verdict result ≡ rows.if_row place (phrase_type condition.entry) (phrase_type then.entry) }
{
    logical(place, condition)?;
    statement(place, then)?;
    Ok(PhraseType::Statement)
}

/// IF with ELSE, which gives what its branches do together: the condition is LOGICAL, else 35 for a statement or 37; the branches are two statements or two values that join, else 37.
pub fn if_else_row<'a>(
    arena: &'a Bump,
    place: Place,
    condition: PhraseType<'a>,
    then: PhraseType<'a>,
    otherwise: PhraseType<'a>,
) -> Result<Verdict<'a>, AllocError>
    ensures { IfOk result (λ r. verdict r ≡ rows.if_else_row place
        (phrase_type condition.entry) (phrase_type then.entry) (phrase_type otherwise.entry)) }
{
    if let Err(why) = logical(place, condition) {
        return Ok(Err(why));
    }
    match (then, otherwise) {
        (PhraseType::Statement, PhraseType::Statement) => Ok(Ok(PhraseType::Statement)),
        (PhraseType::Value(then), PhraseType::Value(otherwise)) => {
            Ok(joined(place, then.join(arena, otherwise)?))
        }
        _ => Ok(fault(place, Diagnostic::TYPE_DOES_NOT_FIT)),
    }
}

/// The type to which values join, else 37.
fn joined<'a>(place: Place, both: Option<ValueType<'a>>) -> Verdict<'a>
    ensures { verdict result ≡ verdicts.joined place (option_map value_type both.entry) }
{
    match both {
        Some(both) => Ok(PhraseType::Value(both)),
        None => fault(place, Diagnostic::TYPE_DOES_NOT_FIT),
    }
}

/// CASE between values, which gives the type to which they join: the selector is INTEGER, else 35 for a statement or 37; each part has a value, else 35; they join, else 37.
pub fn case_value_row<'a>(
    arena: &'a Bump,
    place: Place,
    selector: PhraseType<'a>,
    parts: &[PhraseType<'a>],
) -> Result<Verdict<'a>, AllocError>
    ensures { IfOk result (λ r.
        verdict r ≡ rows.case_value_row place (phrase_type selector.entry) (map phrase_type parts.now)) }
{
    if let Err(why) = integer(place, selector) {
        return Ok(Err(why));
    }
    if let Err(why) = values(place, parts) {
        return Ok(Err(why));
    }
    Ok(joined(place, join_all(arena, parts)?))
}

/// The type to which the values among parts join, from the left.
fn join_all<'a>(
    arena: &'a Bump,
    parts: &[PhraseType<'a>],
) -> Result<Option<ValueType<'a>>, AllocError>
    ensures { IfOk result (λ t. option_map value_type t ≡ join_all (values_of parts.now)) }
{
    let mut joined = None;
    for part in parts {
        if let PhraseType::Value(next) = *part {
            let Some(both) = join_next(arena, joined, next)? else {
                return Ok(None);
            };
            joined = Some(both);
        }
    }
    Ok(joined)
}

/// The type to which the next value joins what those before it join to.
fn join_next<'a>(
    arena: &'a Bump,
    before: Option<ValueType<'a>>,
    next: ValueType<'a>,
) -> Result<Option<ValueType<'a>>, AllocError>
    ensures { IfOk result (λ t.
        option_map value_type t ≡ join_next (option_map value_type before.entry) (value_type next.entry)) }
{
    match before {
        None => Ok(Some(next)),
        Some(before) => before.join(arena, next),
    }
}

/// CASE between statements, a statement: the selector is INTEGER, else 35 for a statement or 37; each part is a statement, else 36.
pub fn case_do_row<'a>(
    place: Place,
    selector: PhraseType<'a>,
    parts: &[PhraseType<'a>],
) -> Verdict<'a>
    ensures { verdict result ≡ rows.case_do_row place (phrase_type selector.entry) (map phrase_type parts.now) }
{
    integer(place, selector)?;
    statements(place, parts)?;
    Ok(PhraseType::Statement)
}

/// FOR, a statement: the parts of its list are INTEGER, tested in order, else 35 for a statement or 37; its body is a statement, else 36.
pub fn for_row<'a>(place: Place, parts: &[PhraseType<'a>], body: PhraseType<'a>) -> Verdict<'a>
    ensures { verdict result ≡ rows.for_row place (map phrase_type parts.now) (phrase_type body.entry) }
{
    integers(place, parts)?;
    statement(place, body)?;
    Ok(PhraseType::Statement)
}

/// WHILE, a statement: the condition is LOGICAL, else 35 for a statement or 37; its body is a statement, else 36.
pub fn while_row<'a>(place: Place, condition: PhraseType<'a>, body: PhraseType<'a>) -> Verdict<'a>
    ensures { verdict result ≡ rows.while_row place (phrase_type condition.entry) (phrase_type body.entry) }
{
    logical(place, condition)?;
    statement(place, body)?;
    Ok(PhraseType::Statement)
}

/// ASSERT, a statement: the condition is LOGICAL, else 35 for a statement or 37.
pub fn assert_row<'a>(place: Place, condition: PhraseType<'a>) -> Verdict<'a>
    ensures { verdict result ≡ rows.assert_row place (phrase_type condition.entry) }
{
    logical(place, condition)?;
    Ok(PhraseType::Statement)
}

/// An operator between two operands, which gives a value of the left one's type: both have values, else 35, that the operator takes, else 34.
pub fn link_row<'a>(
    op: Op,
    place: Place,
    left: PhraseType<'a>,
    right: PhraseType<'a>,
) -> Verdict<'a>
    ensures { verdict result ≡ rows.link_row op place (phrase_type left.entry) (phrase_type right.entry) }
{
    let left = value(place, left)?;
    let right = value(place, right)?;
    match op {
        Op::Or | Op::And => both_logical_or_bits(place, left, right),
        Op::Plus | Op::Minus | Op::Times | Op::Div | Op::Rem => both_integer(place, left, right),
        Op::Shl | Op::Shr => bits_by_integer(place, left, right),
        Op::Slash | Op::Power => fault(place, Diagnostic::OPERATOR_DOES_NOT_FIT),
    }
}

/// 34 unless both values are LOGICAL or both BITS.
fn both_logical_or_bits<'a>(place: Place, left: ValueType<'a>, right: ValueType<'a>) -> Verdict<'a>
    ensures { verdict result ≡ rows.both_logical_or_bits place (value_type left.entry) (value_type right.entry) }
{
    match (left, right) {
        (ValueType::Logical, ValueType::Logical) | (ValueType::Bits, ValueType::Bits) => {
            Ok(PhraseType::Value(left))
        }
        _ => fault(place, Diagnostic::OPERATOR_DOES_NOT_FIT),
    }
}

/// 34 unless both values are INTEGER.
fn both_integer<'a>(place: Place, left: ValueType<'a>, right: ValueType<'a>) -> Verdict<'a>
    ensures { verdict result ≡ rows.both_integer place (value_type left.entry) (value_type right.entry) }
{
    match (left, right) {
        (ValueType::Integer, ValueType::Integer) => Ok(PhraseType::Value(ValueType::Integer)),
        _ => fault(place, Diagnostic::OPERATOR_DOES_NOT_FIT),
    }
}

/// 34 unless the left value is BITS and the right one INTEGER.
fn bits_by_integer<'a>(place: Place, left: ValueType<'a>, right: ValueType<'a>) -> Verdict<'a>
    ensures { verdict result ≡ rows.bits_by_integer place (value_type left.entry) (value_type right.entry) }
{
    match (left, right) {
        (ValueType::Bits, ValueType::Integer) => Ok(PhraseType::Value(ValueType::Bits)),
        _ => fault(place, Diagnostic::OPERATOR_DOES_NOT_FIT),
    }
}

/// `~`, which gives a value of its operand's type: that has a value, else 35, which is LOGICAL or BITS, else 34.
pub fn negated_row<'a>(place: Place, operand: PhraseType<'a>) -> Verdict<'a>
    ensures { verdict result ≡ rows.negated_row place (phrase_type operand.entry) }
{
    match value(place, operand)? {
        ValueType::Logical | ValueType::Bits => Ok(operand),
        _ => fault(place, Diagnostic::OPERATOR_DOES_NOT_FIT),
    }
}

/// A sign or ABS, which gives an INTEGER: its operand has a value, else 35, which is INTEGER, else 34.
pub fn integer_row<'a>(place: Place, operand: PhraseType<'a>) -> Verdict<'a>
    ensures { verdict result ≡ rows.integer_row place (phrase_type operand.entry) }
{
    match value(place, operand)? {
        ValueType::Integer => Ok(operand),
        _ => fault(place, Diagnostic::OPERATOR_DOES_NOT_FIT),
    }
}

/// A comparison, which gives a LOGICAL: both operands have values, else 35, that the operator compares, else 34.
pub fn relation_row<'a>(
    op: RelOp,
    place: Place,
    left: PhraseType<'a>,
    right: PhraseType<'a>,
) -> Verdict<'a>
    ensures { verdict result ≡ rows.relation_row op place (phrase_type left.entry) (phrase_type right.entry) }
{
    let left = value(place, left)?;
    let right = value(place, right)?;
    let fits = match op {
        RelOp::Equal | RelOp::NotEqual => are_comparable(left, right),
        RelOp::Less | RelOp::LessEqual | RelOp::Greater | RelOp::GreaterEqual => {
            are_ordered(left, right)
        }
    };
    if fits {
        Ok(PhraseType::Value(ValueType::Logical))
    } else {
        fault(place, Diagnostic::OPERATOR_DOES_NOT_FIT)
    }
}

/// Whether two values can be equal: they are of one kind, and of references one fits the other.
fn are_comparable<'a>(left: ValueType<'a>, right: ValueType<'a>) -> bool
    ensures { result ≡ rows.are_comparable (value_type left.entry) (value_type right.entry) }
{
    match (left, right) {
        (ValueType::Integer, ValueType::Integer)
        | (ValueType::Logical, ValueType::Logical)
        | (ValueType::Bits, ValueType::Bits)
        | (ValueType::Str(_), ValueType::Str(_)) => true,
        (ValueType::Reference(_), ValueType::Reference(_)) => left.fits(right) || right.fits(left),
        _ => false,
    }
}

/// Whether two values are in an order: they are both INTEGER or both STRING.
fn are_ordered<'a>(left: ValueType<'a>, right: ValueType<'a>) -> bool
    ensures { result ≡ rows.are_ordered (value_type left.entry) (value_type right.entry) }
{
    matches!(
        (left, right),
        (ValueType::Integer, ValueType::Integer) | (ValueType::Str(_), ValueType::Str(_))
    )
}

/// IS, which gives a LOGICAL: its operand has a value, else 35, which is a reference, else 34.
pub fn is_row<'a>(place: Place, operand: PhraseType<'a>) -> Verdict<'a>
    ensures { verdict result ≡ rows.is_row place (phrase_type operand.entry) }
{
    match value(place, operand)? {
        ValueType::Reference(_) => Ok(PhraseType::Value(ValueType::Logical)),
        _ => fault(place, Diagnostic::OPERATOR_DOES_NOT_FIT),
    }
}

/// An assignment, a statement: 43 to a control name or a substring of one, 38 to what is no variable; what is assigned has a value, else 35, and so has the variable, else 35, whose type the value fits, else 37.
pub fn assign_row<'a>(
    place: Place,
    left: Left,
    target: PhraseType<'a>,
    assigned: PhraseType<'a>,
) -> Verdict<'a>
    ensures { verdict result ≡ assign_row place
        (left_view left) (phrase_type target.entry) (phrase_type assigned.entry) }
{
    match left {
        Left::Control => return fault(place, Diagnostic::CONTROL_NAME_ASSIGNED),
        Left::NoVariable => return fault(place, Diagnostic::NOT_A_VARIABLE),
        Left::Variable => {}
    }
    let assigned = value(place, assigned)?;
    let target = value(place, target)?;
    if assigned.fits(target) {
        Ok(PhraseType::Statement)
    } else {
        fault(place, Diagnostic::TYPE_DOES_NOT_FIT)
    }
}
