ghost use Rattle.std.specs.Prelude.{◌≡◌};
ghost use Rattle.algolw_typing.specs.Typing as rules;
ghost use Rattle.algolw_typing.specs.Rows.{link_row, relation_row};
ghost use Rattle.algolw_typing.specs.Verdicts.{part, two_parts, type_of};
ghost use Rattle.typing_rules.specs.View as view;
ghost use Rattle.typed_phrases.specs.FoundParts.{given_view};
ghost use Rattle.typed_phrases.specs.Prefixes.{prefix_row};

use algolw_tree::{Op, RelOp};
use typing_rules::{
    NoType, PhraseType, Verdict, assert_row, integer_row, link_row, negated_row, relation_row,
};
use value_ops::Place;

/// What a phrase with this verdict gives, where it has a type.
pub fn given(verdict: Verdict<'_>) -> Option<PhraseType<'_>>
    ensures { given_view result ≡ type_of (view.verdict verdict.entry) }
{
    verdict.ok()
}

/// What stands before an operand.
#[derive(Clone, Copy)]
pub enum Prefix {
    /// `~`
    Not,
    /// `ABS`
    Abs,
    /// A sign, which is a minus or not.
    Sign(bool),
    /// `ASSERT`
    Assert,
}

/// The verdict of an operand behind what stands before it, at a place.
pub fn prefixed_verdict<'a>(place: Place, prefix: Prefix, operand: Verdict<'a>) -> Verdict<'a>
    ensures { view.verdict result ≡ part (type_of (view.verdict operand.entry)) (prefix_row prefix place) }
{
    match (prefix, operand) {
        (Prefix::Not, Ok(gives)) => negated_row(place, gives),
        (Prefix::Abs | Prefix::Sign(_), Ok(gives)) => integer_row(place, gives),
        (Prefix::Assert, Ok(gives)) => assert_row(place, gives),
        (_, Err(_)) => Err(NoType::Silent),
    }
}

/// The verdict of a comparison, by those of its sides.
pub fn relation_verdict<'a>(
    place: Place,
    op: RelOp,
    left: Verdict<'a>,
    right: Verdict<'a>,
) -> Verdict<'a>
    ensures { view.verdict result ≡ two_parts (type_of (view.verdict left.entry))
        (type_of (view.verdict right.entry)) (relation_row op place) }
{
    match (left, right) {
        (Ok(left), Ok(right)) => relation_row(op, place, left, right),
        _ => Err(NoType::Silent),
    }
}

/// The verdict of the front of a chain, of which a fault was given.
pub fn noted(verdict: Verdict<'_>) -> Verdict<'_>
    ensures { view.verdict result ≡ rules.as_verdict (type_of (view.verdict verdict.entry)) }
{
    match verdict {
        Ok(gives) => Ok(gives),
        Err(_) => Err(NoType::Silent),
    }
}

/// The verdict of a chain with one more link, whose operator stands at a place.
pub fn linked<'a>(op: Op, place: Place, front: Verdict<'a>, right: Verdict<'a>) -> Verdict<'a>
    ensures { view.verdict result ≡ rules.onward (view.verdict front.entry)
        (λ left. part (type_of (view.verdict right.entry)) (link_row op place left)) }
{
    let left = front?;
    match right {
        Ok(right) => link_row(op, place, left, right),
        Err(_) => Err(NoType::Silent),
    }
}
