ghost use Rattle.std.specs.Prelude.{◌≡◌, [], IfOk, map, take};
ghost use Rattle.algolw_tree.specs.Wholes.{whole_tree};
ghost use Rattle.algolw_typing.specs.Faults.{in_order, program_faults, typed_program};
ghost use Rattle.algolw_typing.specs.Programs.{program_of};
ghost use Rattle.algolw_typing.specs.ProgramView.{HoldsProgram};
ghost use Rattle.algolw_typing.specs.Naming.{program_naming};
ghost use Rattle.typed_findings.specs.ClassView.{class_view};
ghost use Rattle.typed_findings.specs.Findings.{finding_view, found_of};
ghost use Rattle.type_checker.specs.Says.{Says};

use algolw_tree::{Program, Whole};
use block_scopes::{sort_classes, sort_faults, sort_names};
use bumpalo::Bump;
use phrase_checker::check_program;
use program_numbers::number_program;
use std::alloc::{AllocError, Global};
use typed_findings::Log;
use value_ops::Diagnostic;

/// How many diagnostics of a program are given.
const MOST_DIAGNOSTICS: usize = 20;

/// What checking says of a program.
#[derive(Drop)]
pub enum Checked {
    /// It has no faults, and is this.
    Good(Program),
    /// Its diagnostics: the first twenty, in order of place and at one place of number.
    Bad(Vec<Diagnostic>),
}

/// Checks the names and types of a program. There is room for so many findings from the first on: a row that grows would leave
/// holes as large as itself.
pub fn check(alloc: Global, root: Whole<'_>, room: usize) -> Result<Checked, AllocError>
    ensures { IfOk result (λ checked. Says (whole_tree root.entry) checked) }
{
    let arena = Bump::new(alloc);
    let found = check_program(alloc, &arena, root, room)?;
    if found.faults.is_empty() {
        let program = good_program(alloc, root, found)?;
        return Ok(Checked::Good(program));
    }
    let given = given_diagnostics(found.faults)?;
    Ok(Checked::Bad(given))
}

/// The program that a tree without faults is, of which this is found.
fn good_program(alloc: Global, root: Whole<'_>, found: Log) -> Result<Program, AllocError>
    requires faults { program_faults (whole_tree root) ≡ [] }
    requires found { map finding_view found.findings.items ≡ found_of (typed_program (whole_tree root)).node }
    requires names { found.names.items ≡ (program_naming (whole_tree root)).names }
    requires classes { map class_view found.classes.items ≡ (program_naming (whole_tree root)).classes }
    ensures { IfOk result (λ program. HoldsProgram program (program_of (whole_tree root.entry))) }
{
    let Log {
        faults: _,
        findings,
        mut names,
        mut classes,
    } = found;
    sort_names(&mut names)?;
    sort_classes(&mut classes)?;
    number_program(alloc, root, &findings, names, &classes)
}

/// The diagnostics that are given of all that are found: the first twenty, in order.
fn given_diagnostics(found: Vec<Diagnostic>) -> Result<Vec<Diagnostic>, AllocError>
    ensures { IfOk result (λ given. given.items ≡ take 20 (in_order found.items)) }
{
    let mut given = found;
    sort_faults(&mut given)?;
    given.truncate(MOST_DIAGNOSTICS);
    Ok(given)
}
