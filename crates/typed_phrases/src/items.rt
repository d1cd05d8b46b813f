ghost use Rattle.std.specs.Prelude.{◌≡◌};
ghost use Rattle.algolw_typing.specs.Rows as rows;
ghost use Rattle.algolw_typing.specs.Typing as rules;
ghost use Rattle.algolw_typing.specs.Verdicts as verdicts;
ghost use Rattle.typing_rules.specs.View as view;

use algolw_tree::Names;
use typing_rules::{NoType, Verdict, item_row};
use value_ops::Place;

/// Whether there are labels.
pub fn has_labels(labels: &Names) -> bool
    ensures { result ≡ rules.has_labels labels.now.items }
{
    !labels.is_empty()
}

/// The verdict of an item, by that of its phrase, which begins at a place.
pub fn item_verdict<'a>(
    is_last: bool,
    is_labelled: bool,
    place: Place,
    phrase: Verdict<'a>,
) -> Verdict<'a>
    ensures { view.verdict result ≡ verdicts.part (verdicts.type_of (view.verdict phrase.entry))
        (rows.item_row is_last is_labelled place) }
{
    match phrase {
        Ok(gives) => item_row(is_last, is_labelled, place, gives),
        Err(_) => Err(NoType::Silent),
    }
}

/// The verdict of items with one more behind them.
pub fn then_item<'a>(before: Verdict<'a>, item: Verdict<'a>) -> Verdict<'a>
    ensures { view.verdict result ≡ rules.then_item (view.verdict before.entry) (view.verdict item.entry) }
{
    match (before, item) {
        (Ok(_), Ok(gives)) => Ok(gives),
        _ => Err(NoType::Silent),
    }
}
