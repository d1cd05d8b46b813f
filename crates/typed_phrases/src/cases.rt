ghost use Rattle.std.specs.Prelude.{◌≡◌, Option, List};
ghost use Rattle.algolw_typing.specs.Rows as rows;
ghost use Rattle.algolw_typing.specs.Types as types;
ghost use Rattle.algolw_typing.specs.Verdicts.{all_parts, part, type_of};
ghost use Rattle.typing_rules.specs.View as view;
ghost use Rattle.typed_phrases.specs.Cases.{both_give, together};
ghost use Rattle.typed_phrases.specs.FoundParts.{given_view};

use typing_rules::{NoType, PhraseType, Verdict, case_do_row};
use value_ops::Place;

/// What the statements of a CASE give together with one more behind them, by its verdict: a statement where each is one, else
/// what the first that is none gives, where each has a type.
pub fn both_give<'a>(
    before: Option<PhraseType<'a>>,
    statement: Verdict<'a>,
) -> Option<PhraseType<'a>>
    ensures { given_view result ≡ both_give (given_view before.entry) (type_of (view.verdict statement.entry)) }
{
    match (before, statement) {
        (Some(PhraseType::Statement), Ok(gives)) => Some(gives),
        (Some(value), Ok(_)) => Some(value),
        _ => None,
    }
}

/// The verdict of a CASE between statements, by that of its subject and by what the statements give together.
#[tactic(auto, using(crate::proofs::Together::row_together))]
pub fn case_do_verdict<'a>(
    place: Place,
    subject: Verdict<'a>,
    gives: Option<PhraseType<'a>>,
) -> Verdict<'a>
    ensures { (gs : List (Option types.Gives)) → given_view gives.entry ≡ together gs →
        view.verdict result ≡ part (type_of (view.verdict subject.entry)) (λ g.
        all_parts gs (rows.case_do_row place g)) }
{
    match (subject, gives) {
        (Ok(subject), Some(gives)) => case_do_row(place, subject, &[gives]),
        _ => Err(NoType::Silent),
    }
}
