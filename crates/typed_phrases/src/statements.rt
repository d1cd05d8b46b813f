ghost use Rattle.std.specs.Prelude.{◌≡◌, ℕ, List, [], Option, Some, IfOk, OnOk};
ghost use Rattle.std.specs.Option.{option_map};
ghost use Rattle.algolw_tree.specs.Tree.{Placed};
ghost use Rattle.algolw_typing.specs.Rows as rows;
ghost use Rattle.algolw_typing.specs.Scopes as scopes;
ghost use Rattle.algolw_typing.specs.Types.{Gives};
ghost use Rattle.algolw_typing.specs.Typing as rules;
ghost use Rattle.algolw_typing.specs.Verdicts.{all_parts, part, two_parts, type_of};
ghost use Rattle.typing_rules.specs.View as view;
ghost use Rattle.typed_phrases.specs.FoundParts.{AreGiven, all_view, given_view, with_one_more};
ghost use Rattle.typed_phrases.specs.Ranges.{range_given};
ghost use Rattle.declared_names.specs.KnownView.{entry_of};

use crate::operators::given;
use bumpalo::Bump;
use declared_names::Known;
use std::alloc::{AllocError, Global};
use typing_rules::{
    Meaning, NoType, PhraseType, Verdict, case_value_row, for_row, if_else_row, if_row, is_row,
    while_row,
};
use value_ops::{Diagnostic, Place};

/// The verdict of a WHILE, by those of its parts.
pub fn while_verdict<'a>(place: Place, condition: Verdict<'a>, body: Verdict<'a>) -> Verdict<'a>
    ensures { view.verdict result ≡ two_parts (type_of (view.verdict condition.entry))
        (type_of (view.verdict body.entry)) (rows.while_row place) }
{
    match (condition, body) {
        (Ok(condition), Ok(body)) => while_row(place, condition, body),
        _ => Err(NoType::Silent),
    }
}

/// The verdict of an IF without ELSE, by those of its parts.
pub fn if_verdict<'a>(place: Place, condition: Verdict<'a>, then: Verdict<'a>) -> Verdict<'a>
    ensures { view.verdict result ≡ two_parts (type_of (view.verdict condition.entry))
        (type_of (view.verdict then.entry)) (rows.if_row place) }
{
    match (condition, then) {
        (Ok(condition), Ok(then)) => if_row(place, condition, then),
        _ => Err(NoType::Silent),
    }
}

/// The verdict of an IF with ELSE, by those of its parts.
pub fn if_else_verdict<'a>(
    arena: &'a Bump,
    place: Place,
    condition: Verdict<'a>,
    then: Verdict<'a>,
    otherwise: Verdict<'a>,
) -> Result<Verdict<'a>, AllocError>
    ensures { IfOk result (λ v. view.verdict v ≡ part (type_of (view.verdict condition.entry)) (λ g.
        two_parts (type_of (view.verdict then.entry)) (type_of (view.verdict otherwise.entry))
        (rows.if_else_row place g))) }
{
    match (condition, then, otherwise) {
        (Ok(condition), Ok(then), Ok(otherwise)) => {
            if_else_row(arena, place, condition, then, otherwise)
        }
        _ => Ok(Err(NoType::Silent)),
    }
}

// ---- values in a row

/// What phrases in a row give.
#[derive(Drop)]
pub struct Phrases<'a> {
    /// What they give, where each has a type.
    pub gives: Option<Vec<PhraseType<'a>>>,
}

impl<'a> Phrases<'a> {
    /// No phrases, with room for so many.
    pub fn with_capacity(alloc: Global, count: usize) -> Result<Phrases<'a>, AllocError>
        ensures { IfOk result (λ phrases. all_view phrases.gives ≡ Some []) }
    {
        Ok(Phrases {
            gives: Some(Vec::with_capacity(alloc, count)?),
        })
    }

    /// Adds a phrase with this verdict.
    pub fn add(&mut self, phrase: Verdict<'a>) -> Result<(), AllocError>
        ensures { OnOk result (all_view self.new.gives
            ≡ with_one_more (all_view self.old.gives) (type_of (view.verdict phrase.entry))) }
    {
        add_given(&mut self.gives, given(phrase))
    }
}

/// Adds what one more phrase gives to what those before it give, where each has a type.
fn add_given<'a>(
    all: &mut Option<Vec<PhraseType<'a>>>,
    gives: Option<PhraseType<'a>>,
) -> Result<(), AllocError>
    ensures { OnOk result (all_view all.new ≡ with_one_more (all_view all.old) (given_view gives.entry)) }
{
    let Some(gives) = gives else {
        *all = None;
        return Ok(());
    };
    if let Some(all) = all {
        all.push(gives)?;
    }
    Ok(())
}

/// The verdict of a CASE between values, by that of its subject and by what the values give.
pub fn case_value_verdict<'a>(
    arena: &'a Bump,
    place: Place,
    subject: Verdict<'a>,
    values: &Phrases<'a>,
) -> Result<Verdict<'a>, AllocError>
    ensures { (gs : List (Option Gives)) → AreGiven (all_view values.now.gives) gs →
        IfOk result (λ v. view.verdict v ≡ part (type_of (view.verdict subject.entry)) (λ g.
        all_parts gs (rows.case_value_row place g))) }
{
    match (subject, &values.gives) {
        (Ok(subject), Some(gives)) => case_value_row(arena, place, subject, gives),
        _ => Ok(Err(NoType::Silent)),
    }
}

/// The verdict of a FOR with a list of values, by what the values give and by the verdict of its body.
pub fn for_list_verdict<'a>(place: Place, values: &Phrases<'a>, body: Verdict<'a>) -> Verdict<'a>
    ensures { (gs : List (Option Gives)) → AreGiven (all_view values.now.gives) gs →
        view.verdict result ≡ all_parts gs (λ all.
        part (type_of (view.verdict body.entry)) (rows.for_row place all)) }
{
    match (&values.gives, body) {
        (Some(gives), Ok(body)) => for_row(place, gives, body),
        _ => Err(NoType::Silent),
    }
}

// ---- ranges

/// The verdicts of the start, the step and the limit of a FOR, of which the step may be missing.
#[derive(Clone, Copy)]
pub struct Range<'a> {
    /// The start.
    pub start: Verdict<'a>,
    /// The step, where there is one.
    pub step: Option<Verdict<'a>>,
    /// The limit.
    pub limit: Verdict<'a>,
}

/// The verdict of a FOR over a range.
pub fn range_verdict<'a>(place: Place, range: Range<'a>, body: Verdict<'a>) -> Verdict<'a>
    ensures { view.verdict result ≡ all_parts (range_given range.entry) (λ gs.
        part (type_of (view.verdict body.entry)) (rows.for_row place gs)) }
{
    let (Ok(start), Ok(limit), Ok(body)) = (range.start, range.limit, body) else {
        return Err(NoType::Silent);
    };
    match range.step {
        None => for_row(place, &[start, limit], body),
        Some(Ok(step)) => for_row(place, &[start, step, limit], body),
        Some(Err(_)) => Err(NoType::Silent),
    }
}

// ---- names of labels and classes

/// The verdict of a GOTO to a name, by its declaration, at a place.
pub fn goto_verdict<'a>(place: Place, target: Option<Known<'a>>) -> Verdict<'a>
    ensures { (x : List ℕ) → view.verdict result ≡ rules.goto_row place (option_map (entry_of x) target.entry) }
{
    let Some(known) = target else {
        return Err(NoType::Fault(Diagnostic {
            place,
            number: Diagnostic::NAME_NOT_DECLARED,
        }));
    };
    match known.means {
        None => Err(NoType::Silent),
        Some(Meaning::Label) => Ok(PhraseType::Statement),
        Some(_) => Err(NoType::Fault(Diagnostic {
            place,
            number: Diagnostic::NOT_A_LABEL,
        })),
    }
}

/// The type that IS states, by the declaration of the class, where the phrase before it has this verdict.
pub fn is_verdict<'a>(place: Place, class: Option<Known<'a>>, operand: Verdict<'a>) -> Verdict<'a>
    ensures { (x : Placed) → let e = option_map (entry_of x.0) class.entry in
        view.verdict result ≡ rules.class_stated (scopes.class_fault x e) (rules.meaning_of e)
        (part (type_of (view.verdict operand.entry)) (rows.is_row place)) }
{
    match (class, operand) {
        (Some(class), Ok(gives)) if class.is_class && class.means.is_some() => is_row(place, gives),
        _ => Err(NoType::Silent),
    }
}
