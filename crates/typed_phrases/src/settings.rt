ghost use Rattle.std.specs.Prelude.{◌≡◌};
ghost use Rattle.std.specs.Option.{option_map};
ghost use Rattle.algolw_tree.specs.View.{tree};
ghost use Rattle.algolw_typing.specs.Typing as rules;
ghost use Rattle.algolw_typing.specs.Verdicts.{type_of};
ghost use Rattle.typing_rules.specs.MeaningView as view;
ghost use Rattle.typing_rules.specs.View as types;
ghost use Rattle.typed_phrases.specs.Settings.{names_width, sets_width};

use algolw_tree::{Kind, Phrase, Standard};
use declared_names::{KnownPath, meaning_of};
use typing_rules::{Meaning, Part, Verdict, Wanted};

/// Whether a name that means this is a standard variable.
fn is_width(means: Option<Meaning<'_>>) -> bool
    ensures { result ≡ rules.is_width (option_map view.meaning means.entry) }
{
    matches!(means, Some(Meaning::Standard(Standard::Variable(_))))
}

/// Whether a phrase is the name alone of a standard variable.
fn names_width(path: &KnownPath, phrase: &Phrase) -> bool
    ensures { result ≡ names_width path.now (tree phrase.now) }
{
    match &phrase.kind {
        Kind::Named(name) => is_width(meaning_of(path.declared(&name.spelling()))),
        Kind::Listed(listed) => {
            listed.lists.is_empty() && is_width(meaning_of(path.declared(&listed.name)))
        }
        _ => false,
    }
}

/// Whether a phrase is an assignment.
fn is_assignment(phrase: &Phrase) -> bool
    ensures { result ≡ rules.is_assignment (tree phrase.now) }
{
    matches!(phrase.kind, Kind::Assign(_))
}

/// Whether a phrase in a list, of which this is wanted, is a setting: it assigns what is no assignment to the name alone of a
/// standard variable.
pub fn is_setting(path: &KnownPath, wanted: Wanted, phrase: &Phrase) -> bool
    ensures { result ≡ sets_width path.now (view.wanted wanted.entry) (tree phrase.now) }
{
    let Wanted::Phrase = wanted else {
        return false;
    };
    let Kind::Assign(assignment) = &phrase.kind else {
        return false;
    };
    names_width(path, &assignment.target) && !is_assignment(&assignment.value)
}

/// What a setting with this verdict is read as.
pub fn setting_part<'a>(found: Verdict<'a>) -> Part<'a>
    ensures { view.part result ≡ rules.setting_part (type_of (types.verdict found.entry)) }
{
    match found {
        Ok(_) => Part::Setting,
        Err(_) => Part::Typeless,
    }
}
