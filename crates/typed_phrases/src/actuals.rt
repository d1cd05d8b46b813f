ghost use Rattle.std.specs.Prelude.{◌≡◌, false, IfOk, map};
ghost use Rattle.std.specs.Option.{option_map};
ghost use Rattle.algolw_tree.specs.Tree.{At};
ghost use Rattle.algolw_tree.specs.View.{applied_tree, kind_tree, listed_tree, tree};
ghost use Rattle.algolw_typing.specs.Actuals.{phrase_part};
ghost use Rattle.algolw_typing.specs.Typing as rules;
ghost use Rattle.algolw_typing.specs.Typing.{typed_phrase};
ghost use Rattle.algolw_typing.specs.Verdicts.{type_of};
ghost use Rattle.typing_rules.specs.MeaningView as view;
ghost use Rattle.typing_rules.specs.View as types;
ghost use Rattle.typed_phrases.specs.Applications.{Applies, IsApplication, is_application};
ghost use Rattle.typed_phrases.specs.Settings.{sets_width};
ghost use Rattle.typed_phrases.specs.Readings.{ListReads, NameReads, Reads, plain, without_type};

use crate::operators::given;
use algolw_tree::{Actual, Applied, Kind, ListKind, Listed, Phrase};
use declared_names::{Known, KnownPath, meaning_of};
use std::alloc::{AllocError, Global};
use typing_rules::{
    Meaning, NoType, Part, ValueType, Verdict, Wanted, phrase_part, subarray_part, subarray_row,
};
use value_ops::Place;

/// A name with one list behind it, which is no substring list.
#[derive(Clone, Copy)]
pub struct Application<'t, 'a> {
    /// What is known of the name.
    pub target: Option<Known<'a>>,
    /// The place of the list's opening parenthesis.
    pub place: Place,
    /// The subscripts, fields or actuals.
    pub actuals: &'t [Actual],
}

impl<'t, 'a> Application<'t, 'a> {
    /// A short name with its list.
    pub fn short(path: &KnownPath<'_, '_, 'a>, applied: &'t Applied) -> Application<'t, 'a>
        ensures { Applies path.now (applied_tree applied.now) result }
    {
        Application {
            target: path.declared(&applied.name.spelling()),
            place: applied.place,
            actuals: applied.actuals.as_slice(),
        }
    }

    /// Any other name with its list, where it has one alone, which is no substring list.
    fn other(path: &KnownPath<'_, '_, 'a>, listed: &'t Listed) -> Option<Application<'t, 'a>>
        ensures { IsApplication path.now (listed_tree listed.now) result }
    {
        let [list] = listed.lists.as_slice() else {
            return None;
        };
        let ListKind::Actuals(actuals) = &list.kind else {
            return None;
        };
        Some(Application {
            target: path.declared(&listed.name),
            place: list.place,
            actuals: actuals.as_slice(),
        })
    }

    /// What a phrase is, where it is a name with one such list.
    pub fn of(path: &KnownPath<'_, '_, 'a>, phrase: &'t Phrase) -> Option<Application<'t, 'a>>
        ensures { IsApplication path.now (kind_tree phrase.now.kind) result }
    {
        match &phrase.kind {
            Kind::Applied(applied) => Some(Application::short(path, applied)),
            Kind::Listed(listed) => Application::other(path, listed),
            _ => None,
        }
    }
}

/// A phrase in a list, as it is read there.
#[derive(Clone, Copy)]
pub struct Given<'a> {
    /// Its verdict there: what is read as an array or a procedure, or isn't read, has no type.
    pub verdict: Verdict<'a>,
    /// What it is read as.
    pub part: Part<'a>,
}

/// A phrase with this verdict that is read as a phrase.
fn phrase_given<'a>(is_variable: bool, found: Verdict<'a>) -> Given<'a>
    ensures verdict { result.verdict ≡ found.entry }
    ensures part { view.part result.part ≡ phrase_part is_variable (type_of (types.verdict found.entry)) }
{
    Given {
        verdict: found,
        part: phrase_part(is_variable, given(found)),
    }
}

/// A name alone that is read as this: as an array or a procedure it gives no fault, and has no type.
fn read_as<'a>(part: Part<'a>, found: Verdict<'a>) -> Given<'a>
    ensures { NameReads (types.verdict found.entry) result (rules.read_as (view.part part.entry)) }
{
    let verdict = match part {
        Part::Statement(_) | Part::Value(_, _) | Part::Typeless => found,
        _ => Err(NoType::Silent),
    };
    Given { verdict, part }
}

/// A name alone.
fn name_given<'a>(wanted: Wanted<'a>, means: Option<Meaning<'a>>, found: Verdict<'a>) -> Given<'a>
    ensures { NameReads (types.verdict found.entry) result
        (rules.name_given (view.wanted wanted.entry) (option_map view.meaning means.entry)) }
{
    match means {
        None => phrase_given(false, found),
        Some(meaning) => read_as(wanted.read_name(meaning, found), found),
    }
}

/// What a part of a list is read as where it isn't asked whether it is a variable: what isn't read as a phrase has no type.
fn plain_part(part: Part<'_>) -> Part<'_>
    ensures { view.part result ≡ plain (view.part part.entry) }
{
    match part {
        Part::Star => Part::Star,
        Part::Statement(_) | Part::Setting => Part::Statement(false),
        Part::Value(_, of) => Part::Value(false, of),
        _ => Part::Typeless,
    }
}

/// The same of all parts of a list.
fn plain_parts<'a>(alloc: Global, parts: &[Part<'a>]) -> Result<Vec<Part<'a>>, AllocError>
    ensures { IfOk result (λ read. map view.part read.items ≡ map plain (map view.part parts.now)) }
{
    let mut read = Vec::with_capacity(alloc, parts.len())?;
    for part in parts {
        read.push(plain_part(*part))?;
    }
    Ok(read)
}

/// A verdict that leaves what has it without type.
fn without_type(verdict: Verdict<'_>) -> Verdict<'_>
    ensures { types.verdict result ≡ without_type (types.verdict verdict.entry) }
{
    match verdict {
        Ok(_) => Err(NoType::Silent),
        Err(no_type) => Err(no_type),
    }
}

/// The name of an array of so many dimensions, with a list of these parts behind it: a subarray where they say so.
fn array_given<'a>(
    alloc: Global,
    place: Place,
    wanted: Wanted<'a>,
    element: ValueType<'a>,
    dimensions: u32,
    found: Verdict<'a>,
    parts: &[Part<'a>],
) -> Result<Given<'a>, AllocError>
    ensures { IfOk result (λ g. NameReads (types.verdict found.entry) g
        (rules.array_given place (view.wanted wanted.entry) (types.value_type element.entry) dimensions
        (map plain (map view.part parts.now)))) }
{
    let parts = plain_parts(alloc, parts)?;
    if !wanted.is_subarray(&parts) {
        return Ok(phrase_given(true, found));
    }
    let row = subarray_row(place, dimensions, &parts);
    Ok(Given {
        verdict: without_type(row),
        part: subarray_part(wanted, element, &parts, row),
    })
}

/// Whether a phrase that a name begins that means this is a variable.
fn is_variable(means: Option<Meaning<'_>>) -> bool
    ensures { result ≡ rules.variable_name (option_map view.meaning means.entry) }
{
    match means {
        None => false,
        Some(meaning) => meaning.is_variable_name(),
    }
}

/// A name that means this, with one list of these parts behind it, in a list.
pub fn list_given<'a>(
    alloc: Global,
    place: Place,
    wanted: Wanted<'a>,
    means: Option<Meaning<'a>>,
    found: Verdict<'a>,
    parts: &[Part<'a>],
) -> Result<Given<'a>, AllocError>
    ensures { IfOk result (λ g. ListReads (types.verdict found.entry) (map view.part parts.now) g
        (rules.list_given place (view.wanted wanted.entry) (option_map view.meaning means.entry))) }
{
    match means {
        Some(Meaning::Array(element, dimensions)) => array_given(
            alloc, place, wanted, element, dimensions, found, parts,
        ),
        _ => Ok(phrase_given(is_variable(means), found)),
    }
}

/// A name with lists behind it, or none, but not one list of actuals alone.
fn listed_given<'a>(
    path: &KnownPath<'_, '_, 'a>,
    wanted: Wanted<'a>,
    listed: &Listed,
    found: Verdict<'a>,
) -> Given<'a>
    requires { is_application (listed_tree listed.now) ≡ false }
    ensures { (place first : Place) → NameReads (types.verdict found.entry) result
        (rules.given path.now (view.wanted wanted.entry) (At place first (listed_tree listed.now))) }
{
    let means = meaning_of(path.declared(&listed.name));
    if listed.lists.is_empty() {
        name_given(wanted, means, found)
    } else {
        phrase_given(is_variable(means), found)
    }
}

/// A phrase in a list, as what is wanted there. It is no name with one list of actuals, and no setting.
pub fn read<'a>(
    path: &KnownPath<'_, '_, 'a>,
    wanted: Wanted<'a>,
    phrase: &Phrase,
    found: Verdict<'a>,
) -> Given<'a>
    requires application { is_application (kind_tree phrase.now.kind) ≡ false }
    requires setting { sets_width path.now (view.wanted wanted) (tree phrase.now) ≡ false }
    ensures { let o = typed_phrase path.now (tree phrase.now) in types.verdict found.entry ≡ o.verdict →
        Reads result o (rules.given path.now (view.wanted wanted.entry) (tree phrase.now) o) }
{
    match &phrase.kind {
        Kind::Named(name) => {
            let means = meaning_of(path.declared(&name.spelling()));
            name_given(wanted, means, found)
        }
        Kind::Listed(listed) => listed_given(path, wanted, listed, found),
        _ => phrase_given(false, found),
    }
}
