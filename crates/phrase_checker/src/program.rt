ghost use Rattle.std.specs.Prelude.{◌≡◌, IfOk, map};
ghost use Rattle.algolw_tree.specs.Wholes.{whole_kind, whole_tree};
ghost use Rattle.algolw_typing.specs.Faults.{deck_place, faults_found, item_place, typed_program};
ghost use Rattle.algolw_typing.specs.Rows as rows;
ghost use Rattle.algolw_typing.specs.Verdicts.{part, type_of};
ghost use Rattle.algolw_typing.specs.Naming.{program_naming};
ghost use Rattle.typed_findings.specs.ClassView.{class_view};
ghost use Rattle.typed_findings.specs.Findings.{finding_view, found_of};
ghost use Rattle.typing_rules.specs.View as view;

use crate::checker::Checker;
use algolw_tree::{Item, LIBRARY_PLACE, Whole};
use block_scopes::{Frame, note_standard};
use bumpalo::Bump;
use declared_names::KnownPath;
use std::alloc::{AllocError, Global};
use typed_findings::{Finding, Log};
use typing_rules::{NoType, Verdict, program_row};
use value_ops::Place;

/// Where the block of a program's deck begins: that of the program, or else, where a library stands round it, that of the
/// program's one item.
fn deck_place(root: Whole<'_>) -> Place
    ensures { result ≡ deck_place (whole_tree root.entry) }
{
    if root.place == LIBRARY_PLACE {
        item_place(root)
    } else {
        root.place
    }
}

/// Where the first item of a program stands; where it has none, the program.
fn item_place(root: Whole<'_>) -> Place
    ensures { result ≡ item_place root.entry.place (whole_kind root.entry) }
{
    match root.items.first() {
        None => root.place,
        Some(Item::Empty(place)) => *place,
        Some(Item::Plain(phrase)) => phrase.place,
        Some(Item::Labelled(labelled)) => labelled.phrase.place,
    }
}

/// The verdict of a program, at `BEGIN`, by that of its block.
fn program_verdict<'a>(place: Place, block: Verdict<'a>) -> Verdict<'a>
    ensures { view.verdict result ≡ part (type_of (view.verdict block.entry)) (rows.program_row place) }
{
    match block {
        Ok(gives) => program_row(place, gives),
        Err(_) => Err(NoType::Silent),
    }
}

/// Checks a program, with the standard names in a block round it: all its faults, in the order of the rules, what is found of
/// its phrases, and its names and record classes in the order in which they are met. That it isn't a statement is said where
/// its deck begins. There is room for so many findings from the first on, so that the row needn't grow.
pub fn check_program<'t, 'a: 't>(
    alloc: Global,
    arena: &'a Bump,
    root: Whole<'t>,
    room: usize,
) -> Result<Log<'a>, AllocError>
    ensures findings { IfOk result (λ log. map finding_view log.findings.items
        ≡ found_of (typed_program (whole_tree root.entry)).node) }
    ensures faults { IfOk result (λ log. log.faults.items
        ≡ faults_found (whole_tree root.entry) (typed_program (whole_tree root.entry))) }
    ensures names { IfOk result (λ log. log.names.items ≡ (program_naming (whole_tree root.entry)).names) }
    ensures classes { IfOk result (λ log. map class_view log.classes.items
        ≡ (program_naming (whole_tree root.entry)).classes) }
{
    let mut log = Log::new(alloc);
    log.findings = Vec::with_capacity(alloc, room)?;
    note_standard(&mut log.names)?;
    let mut checker = Checker { alloc, arena, log };
    let standard: KnownPath<'t, 't, 'a> = KnownPath::standard();
    let block = checker.root(Frame::of_program(), &standard, root)?;
    checker.note(program_verdict(deck_place(root), block))?;
    Ok(checker.log)
}
