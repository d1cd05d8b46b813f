ghost use Rattle.std.specs.Prelude.{◌≡◌, ℕ, Some, List, IfOk, map};
ghost use Rattle.algolw_typing.specs.Typing as rules;
ghost use Rattle.algolw_typing.specs.Verdicts as verdicts;
ghost use Rattle.typing_rules.specs.View as view;
ghost use Rattle.typing_rules.specs.MeaningView.{part, reading};
ghost use Rattle.typed_phrases.specs.Fronts as fronts;
ghost use Rattle.typed_phrases.specs.FrontViews.{front_view};
ghost use Rattle.declared_names.specs.KnownView.{entry_of};

use crate::operators::given;
use bumpalo::Bump;
use declared_names::Known;
use std::alloc::AllocError;
use typing_rules::{
    NoType, Part, Reading, Verdict, all_read, alone_row, base_row, list_row, part_row,
};
use value_ops::{Diagnostic, Place};

/// What stands before a list.
#[derive(Clone, Copy)]
pub enum Front<'a> {
    /// A name alone, at a place, and what is known of it.
    Name(Place, Option<Known<'a>>),
    /// What is complete, with this verdict.
    Complete(Verdict<'a>),
}

/// The verdict of a name that isn't declared.
fn undeclared<'a>(place: Place) -> Verdict<'a>
    ensures { view.verdict result ≡ verdicts.Fault 30 place }
{
    Err(NoType::Fault(Diagnostic {
        place,
        number: Diagnostic::NAME_NOT_DECLARED,
    }))
}

/// The verdict of a declared name, at a place, with a list of these parts behind it.
fn known_with_list<'a>(
    arena: &'a Bump,
    place: Place,
    known: Known<'a>,
    parts: &[Part<'a>],
) -> Result<Verdict<'a>, AllocError>
    ensures { IfOk result (λ v. (x : List ℕ) → view.verdict v
        ≡ rules.use_with_list place (Some (entry_of x known.entry)) (map part parts.now)) }
{
    let Some(meaning) = known.means else {
        return Ok(Err(NoType::Silent));
    };
    match all_read(parts) {
        Ok(()) => list_row(arena, place, meaning, known.place, parts),
        Err(no_type) => Ok(Err(no_type)),
    }
}

/// The verdict of what is complete and has this verdict, with a list of these parts behind it, at a place.
fn complete_with_list<'a>(place: Place, front: Verdict<'a>, parts: &[Part<'a>]) -> Verdict<'a>
    ensures { view.verdict result ≡ rules.list_verdict place (view.verdict front.entry) (map part parts.now) }
{
    front?;
    all_read(parts)?;
    Err(NoType::Fault(Diagnostic {
        place,
        number: Diagnostic::NAME_NOT_USED_SO,
    }))
}

impl<'a> Front<'a> {
    /// How the parts of a list behind it are read.
    pub fn reading(self) -> Reading<'a>
        ensures { (x : List ℕ) → reading result ≡ fronts.front_reading (front_view x self.entry) }
    {
        match self {
            Front::Name(_, Some(known)) => known.reading,
            Front::Name(_, None) | Front::Complete(_) => Reading::AsPhrases,
        }
    }

    /// Its verdict without a list behind it.
    pub fn alone(self, arena: &'a Bump) -> Result<Verdict<'a>, AllocError>
        ensures { IfOk result (λ v. (x : List ℕ) → view.verdict v ≡ fronts.front_alone (front_view x self.entry)) }
    {
        match self {
            Front::Name(place, None) => Ok(undeclared(place)),
            Front::Name(place, Some(known)) => match known.means {
                None => Ok(Err(NoType::Silent)),
                Some(meaning) => alone_row(arena, place, meaning, known.place),
            },
            Front::Complete(verdict) => Ok(verdict),
        }
    }

    /// Its verdict with a list of these parts behind it, at a place.
    pub fn with_list(
        self,
        arena: &'a Bump,
        place: Place,
        parts: &[Part<'a>],
    ) -> Result<Verdict<'a>, AllocError>
        ensures { IfOk result (λ v. (x : List ℕ) → view.verdict v
            ≡ fronts.front_list place (front_view x self.entry) (map part parts.now)) }
    {
        match self {
            Front::Name(name, None) => Ok(undeclared(name)),
            Front::Name(name, Some(known)) => known_with_list(arena, name, known, parts),
            Front::Complete(verdict) => Ok(complete_with_list(place, verdict, parts)),
        }
    }

    /// Its verdict as the base of a substring list with this start.
    fn base(self, start: Verdict<'a>) -> Verdict<'a>
        ensures { (x : List ℕ) → view.verdict result
            ≡ fronts.front_base (front_view x self.entry) (verdicts.type_of (view.verdict start.entry)) }
    {
        match self {
            Front::Name(name, None) => undeclared(name),
            Front::Name(name, Some(known)) => match known.means {
                None => Err(NoType::Silent),
                Some(meaning) => base_row(name, meaning, given(start)),
            },
            Front::Complete(verdict) => verdict,
        }
    }

    /// Its verdict with a substring list behind it, at a place: with this start, and of this length.
    pub fn with_part(self, place: Place, start: Verdict<'a>, length: i32) -> Verdict<'a>
        ensures { (x : List ℕ) → view.verdict result
            ≡ fronts.front_part place length (front_view x self.entry) (verdicts.type_of (view.verdict start.entry)) }
    {
        let base = self.base(start)?;
        match start {
            Ok(start) => part_row(place, length, base, start),
            Err(_) => Err(NoType::Silent),
        }
    }
}
