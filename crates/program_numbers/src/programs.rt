ghost use Rattle.std.specs.Prelude.{◌≡◌, IfOk, OnOk, map};
ghost use Rattle.algolw_tree.specs.Wholes.{whole_tree};
ghost use Rattle.algolw_typing.specs.Faults.{typed_program};
ghost use Rattle.algolw_typing.specs.Known.{AllHad, Knows, ClassesKnow};
ghost use Rattle.algolw_typing.specs.ProgramView.{HoldsProgram};
ghost use Rattle.algolw_typing.specs.Programs.{by_place, statements};
ghost use Rattle.typed_findings.specs.ClassView.{class_view};
ghost use Rattle.typed_findings.specs.Findings.{counted_places, finding_view, found_of};

use crate::numbering::Numbering;
use crate::place_numbers::PlaceNumbers;
use algolw_tree::{NameInfo, Program, Whole};
use std::alloc::{AllocError, Global};
use typed_findings::{Finding, FoundClass, Untaken, statements};
use value_ops::Place;

/// Puts places in order.
fn sort_places(places: &mut Vec<Place>) -> Result<(), AllocError>
    ensures { OnOk result (places.new.items ≡ by_place (λ place. place) places.old.items) }
{
    places.sort()?;
    Ok(())
}

/// Where names are declared.
fn name_places(alloc: Global, names: &[NameInfo]) -> Result<Vec<Place>, AllocError>
    ensures { IfOk result (λ places. places.items ≡ map (λ info. info.place) names.now) }
{
    let mut places = Vec::with_capacity(alloc, names.len())?;
    for info in names {
        places.push(info.place)?;
    }
    Ok(places)
}

/// Where record classes are declared.
fn class_places(alloc: Global, classes: &[FoundClass]) -> Result<Vec<Place>, AllocError>
    ensures { IfOk result (λ places. places.items ≡ map (λ class. class.place) (map class_view classes.now)) }
{
    let mut places = Vec::with_capacity(alloc, classes.len())?;
    for class in classes {
        places.push(class.place)?;
    }
    Ok(places)
}

/// The places of the statements of a program of which this is found, in order.
fn statement_places(alloc: Global, findings: &[Finding]) -> Result<Vec<Place>, AllocError>
    ensures { IfOk result (λ places. places.items
        ≡ by_place (λ place. place) (counted_places (map finding_view findings.now))) }
{
    let mut places = statements(alloc, findings)?;
    sort_places(&mut places)?;
    Ok(places)
}

/// The numbers of the names, the record classes and the statements of a program of which this is found.
fn program_numbering(
    alloc: Global,
    findings: &[Finding],
    names: &[NameInfo],
    classes: &[FoundClass],
) -> Result<Numbering, AllocError>
    ensures names { IfOk result (λ n. n.names ≡ map (λ info. info.place) names.now) }
    ensures classes { IfOk result (λ n. n.classes ≡ map (λ class. class.place) (map class_view classes.now)) }
    ensures statements { IfOk result (λ n. n.statements
        ≡ by_place (λ place. place) (counted_places (map finding_view findings.now))) }
{
    let names = PlaceNumbers::new(name_places(alloc, names)?)?;
    let classes = PlaceNumbers::new(class_places(alloc, classes)?)?;
    let statements = PlaceNumbers::new(statement_places(alloc, findings)?)?;
    Ok(Numbering {
        alloc,
        names,
        classes,
        statements,
    })
}

/// The program in memory that a tree is of which this is found, with these names and these record classes.
pub fn number_program<'a>(
    alloc: Global,
    root: Whole<'_>,
    findings: &[Finding<'a>],
    names: Vec<NameInfo>,
    classes: &[FoundClass<'a>],
) -> Result<Program, AllocError>
    requires found { map finding_view findings.now ≡ found_of (typed_program (whole_tree root)).node }
    requires known { Knows (map (λ info. info.place) names.items)
        (map (λ class. class.place) (map class_view classes.now)) (typed_program (whole_tree root)).node }
    requires fields { ClassesKnow (map (λ class. class.place) (map class_view classes.now))
        (map class_view classes.now) }
    requires named { AllHad (map (λ info. info.place) names.items)
        (map (λ class. class.place) (map class_view classes.now)) }
    ensures { IfOk result (λ program. HoldsProgram program
        (record {
          root = (typed_program (whole_tree root.entry)).node;
          names = names.items;
          classes = map class_view classes.now;
          statements =
              by_place (λ place. place) (statements (typed_program (whole_tree root.entry)).node);
        })) }
{
    let numbering = program_numbering(alloc, findings, &names, classes)?;
    let mut table = numbering.class_table(classes)?;
    let mut found = Untaken::new(findings);
    let root = numbering.root(&mut table, root, &mut found)?;
    let class_names = numbering.class_names(classes)?;
    Ok(Program {
        root,
        names,
        classes: table.into_table(),
        class_names,
        statements: numbering.into_statements(),
    })
}
