ghost use Rattle.std.specs.Prelude.{◌≡◌};
ghost use Rattle.std.specs.Option.{option_map};
ghost use Rattle.algolw_tree.specs.View.{tree};
ghost use Rattle.algolw_typing.specs.Typing as rules;
ghost use Rattle.algolw_typing.specs.Verdicts.{part, two_parts, type_of};
ghost use Rattle.typing_rules.specs.View as view;
ghost use Rattle.typing_rules.specs.Lefts.{left_view};
ghost use Rattle.typing_rules.specs.MeaningView as meaning_view;
ghost use Rattle.typed_phrases.specs.FoundParts.{given_view};

use algolw_tree::{Kind, Phrase};
use declared_names::{KnownPath, meaning_of};
use typing_rules::{Left, Meaning, NoType, PhraseType, Verdict, assign_row};
use value_ops::Place;

/// What a name that means this is at the left of an assignment.
fn left_name(means: Option<Meaning<'_>>) -> Left
    ensures { left_view result ≡ rules.left_name (option_map meaning_view.meaning means.entry) }
{
    match means {
        Some(Meaning::Control) => Left::Control,
        Some(meaning) if meaning.is_variable_name() => Left::Variable,
        _ => Left::NoVariable,
    }
}

/// What stands at the left of an assignment.
pub fn left_of(path: &KnownPath, phrase: &Phrase) -> Left
    ensures { left_view result ≡ rules.left_of path.now (tree phrase.now) }
{
    match &phrase.kind {
        Kind::Named(name) => left_name(meaning_of(path.declared(&name.spelling()))),
        Kind::Applied(applied) => left_name(meaning_of(path.declared(&applied.name.spelling()))),
        Kind::Listed(listed) => left_name(meaning_of(path.declared(&listed.name))),
        _ => Left::NoVariable,
    }
}

/// The verdict of an assignment to what stands at its left, by those of its sides and by what the value at its right end gives.
pub fn assigned_verdict<'a>(
    place: Place,
    left: Left,
    target: Verdict<'a>,
    value: Verdict<'a>,
    end: Option<PhraseType<'a>>,
) -> Verdict<'a>
    ensures { view.verdict result ≡ two_parts (type_of (view.verdict target.entry))
        (type_of (view.verdict value.entry))
        (λ l r. part (given_view end.entry) (rules.assign_row place (left_view left) l)) }
{
    match (target, value, end) {
        (Ok(gives), Ok(_), Some(end)) => assign_row(place, left, gives, end),
        _ => Err(NoType::Silent),
    }
}
