ghost use Rattle.std.specs.Prelude.{◌≡◌, ◌++◌, ◌∷◌, IfOk, OnOk, map};
ghost use Rattle.std.specs.Option.{option_map};
ghost use Rattle.algolw_tree.specs.View.{formal_tree, spec_tree};
ghost use Rattle.algolw_typing.specs.Scopes as scopes;
ghost use Rattle.algolw_typing.specs.Verdicts as verdicts;
ghost use Rattle.typing_rules.specs.View as view;
ghost use Rattle.algolw_typing.specs.Typing.{typed_formals};
ghost use Rattle.typed_findings.specs.Findings.{as_type, finding_view, formals_found};
ghost use Rattle.algolw_typing.specs.Naming.{nothing};
ghost use Rattle.typed_findings.specs.Noted.{Notes};
ghost use Rattle.declared_names.specs.Heads.{IsHead, verdict_of};

use crate::declarations::{formal_faults, log_formals, result_faults, result_type};
use crate::path::KnownPath;
use algolw_tree::{Formal, TypeSpec};
use bumpalo::Bump;
use std::alloc::AllocError;
use typed_findings::{Finding, Log};
use typing_rules::{NoType, ValueType, Verdict, procedure_row};
use value_ops::Place;

/// What is found of a procedure before its body.
#[derive(Clone, Copy)]
pub struct Head<'a> {
    /// Whether the type of its value, as it is written, has no fault.
    pub is_sound: bool,
    /// The type of its value, where it has one.
    pub result: Option<ValueType<'a>>,
}

/// Finds what stands before the body. Adds the faults in it but those of its formals' names, and the findings of its types.
pub fn read_head<'a>(
    arena: &'a Bump,
    path: &KnownPath<'_, '_, 'a>,
    value_type: &Option<TypeSpec>,
    formals: &[Formal],
    log: &mut Log<'a>,
) -> Result<Head<'a>, AllocError>
    ensures faults { OnOk result (log.new.faults.items ≡ log.old.faults.items
        ++ scopes.result_faults path.now (option_map spec_tree value_type.now)
        ++ scopes.formal_faults path.now (map formal_tree formals.now)) }
    ensures findings { OnOk result (map finding_view log.new.findings.items
        ≡ map finding_view log.old.findings.items
        ++ as_type (scopes.result_type path.now (option_map spec_tree value_type.now))
        ∷ formals_found (typed_formals path.now (map formal_tree formals.now))) }
    ensures notes { OnOk result (Notes log.old log.new nothing) }
    ensures head { IfOk result (λ h. IsHead h path.now (option_map spec_tree value_type.now)) }
{
    let before = log.faults.len();
    result_faults(path, value_type, &mut log.faults)?;
    let is_sound = log.faults.len() == before;
    formal_faults(path, formals, &mut log.faults)?;
    let result = result_type(arena, path, value_type)?;
    log.add(Finding::of_type(result))?;
    log_formals(arena, path, formals, log)?;
    Ok(Head { is_sound, result })
}

/// The verdict of a procedure, at `PROCEDURE`: its body gives what its head says.
pub fn procedure_verdict<'a>(place: Place, head: Head<'a>, body: Verdict<'a>) -> Verdict<'a>
    ensures { view.verdict result ≡ verdict_of place head.entry.is_sound
        (option_map view.value_type head.entry.result) (verdicts.type_of (view.verdict body.entry)) }
{
    match body {
        Ok(gives) if head.is_sound => procedure_row(place, head.result, gives),
        _ => Err(NoType::Silent),
    }
}
