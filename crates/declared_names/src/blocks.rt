ghost use Rattle.std.specs.Prelude.{◌≡◌, ◌++◌, ◌∷◌, [], List, None, Some, IfOk, OnOk, map};
ghost use Rattle.algolw_tree.specs.Grammar.{decls_of, items_of};
ghost use Rattle.algolw_tree.specs.Tree.{Placed};
ghost use Rattle.algolw_tree.specs.View.{class_tree, decl_tree, item_tree, procedure_tree, spec_tree};
ghost use Rattle.algolw_typing.specs.Actuals as actuals;
ghost use Rattle.algolw_typing.specs.Meanings as meanings;
ghost use Rattle.algolw_typing.specs.Rows as rows;
ghost use Rattle.algolw_typing.specs.Scopes as scopes;
ghost use Rattle.algolw_typing.specs.Typing as rules;
ghost use Rattle.algolw_typing.specs.Verdicts as verdicts;
ghost use Rattle.typing_rules.specs.View as view;
ghost use Rattle.algolw_typing.specs.Naming.{class_naming, nothing};
ghost use Rattle.typed_findings.specs.Noted.{Notes};
ghost use Rattle.declared_names.specs.Blocks.{bounds_found, bounds_notes, bounds_view, decl_bounds, DeclFound};
ghost use Rattle.declared_names.specs.NamesAlong.{names_along};

use crate::classes::note_class;
use crate::declarations::{
    declare_alike, declare_class, declare_names, dimension_fault, formal_faults, formal_types,
    good, group_faults, log_groups, log_type, result_faults, result_type, spec_faults, spec_type,
};
use crate::known::{Declared, Facts, KnownScope};
use crate::path::KnownPath;
use algolw_tree::{ClassDecl, Decl, Item, NameInfo, Names, ProcDecl, Spelling, TypeSpec};
use bumpalo::Bump;
use std::alloc::{AllocError, Global};
use typed_findings::{Finding, FoundClass, Log};
use typing_rules::{Meaning, NoType, Reading, Verdict, bound_row};
use value_ops::{Diagnostic, Place};

/// What is found of the bounds of a declaration.
#[derive(Clone, Copy)]
pub struct Bounds<'a> {
    /// The faults in them.
    pub faults: &'a [Diagnostic],
    /// The findings of the phrases in them.
    pub findings: &'a [Finding<'a>],
    /// What is declared in them.
    pub names: &'a [NameInfo],
    /// The record classes in them.
    pub classes: &'a [FoundClass<'a>],
}

/// The bounds of what is no array.
pub fn no_bounds<'a>() -> Bounds<'a>
    ensures found { bounds_view result ≡ bounds_found rules.no_more_bounds }
    ensures notes { bounds_notes result ≡ nothing }
{
    Bounds {
        faults: &[],
        findings: &[],
        names: &[],
        classes: &[],
    }
}

// ---- the names of a block, before anything is known of what they mean

/// Declares names of which nothing is known.
fn name_all<'t>(
    names: &'t [(Spelling, Place)],
    scope: &mut KnownScope<'t, '_>,
) -> Result<(), AllocError>
    ensures { OnOk result (scope.new ≡ scope.old ++ scopes.entries names.now None) }
{
    declare_alike(names, Facts::Nothing, scope)
}

/// Declares the fields of a class, of which nothing is known.
#[tactic(auto, using(crate::proofs::Placing::entries_append))]
fn name_fields<'t>(class: &'t ClassDecl, scope: &mut KnownScope<'t, '_>) -> Result<(), AllocError>
    ensures { OnOk result (scope.new ≡ scope.old
        ++ scopes.entries (scopes.group_names (class_tree class.now).groups) None) }
{
    for (_, names) in &class.groups {
        name_all(names, scope)?;
    }
    Ok(())
}

/// Declares a name of which nothing is known but whether it is a class.
fn name_alone<'t>(
    name: &'t (Spelling, Place),
    is_class: bool,
    scope: &mut KnownScope<'t, '_>,
) -> Result<(), AllocError>
    ensures { OnOk result (scope.new ≡ scope.old ++ scopes.known name.now is_class actuals.as_phrases None ∷ []) }
{
    let facts = if is_class {
        Facts::Class
    } else {
        Facts::Nothing
    };
    scope.declare(name, facts)
}

/// Declares the names of a declaration, of which nothing is known.
fn name_decl<'t>(decl: &'t Decl, scope: &mut KnownScope<'t, '_>) -> Result<(), AllocError>
    ensures { OnOk result (scope.new ≡ scope.old ++ scopes.names_of_decl (decl_tree decl.now)) }
{
    match decl {
        Decl::Simple(_, names) | Decl::Array(_, names, _) => name_all(names, scope),
        Decl::Proc(procedure) => name_alone(&procedure.name, false, scope),
        Decl::Class(class) => {
            name_alone(&class.name, true, scope)?;
            name_fields(class, scope)
        }
    }
}

/// Declares the labels of a phrase.
fn declare_labelled<'t>(
    labels: &'t [(Spelling, Place)],
    scope: &mut KnownScope<'t, '_>,
) -> Result<(), AllocError>
    ensures { OnOk result (scope.new ≡ scope.old ++ scopes.entries labels.now (Some meanings.a_label)) }
{
    declare_alike(labels, Facts::Label, scope)
}

/// Declares labels.
pub fn declare_labels<'t>(
    items: &'t [Item],
    scope: &mut KnownScope<'t, '_>,
) -> Result<(), AllocError>
    ensures { OnOk result (scope.new ≡ scope.old ++ scopes.label_entries (items_of (map item_tree items.now))) }
{
    for item in items {
        if let Item::Labelled(labelled) = item {
            declare_labelled(&labelled.labels, scope)?;
        }
    }
    Ok(())
}

/// Declares the names of declarations, of which nothing is known.
fn name_decls<'t>(decls: &'t [Decl], scope: &mut KnownScope<'t, '_>) -> Result<(), AllocError>
    ensures { OnOk result (scope.new ≡ scope.old ++ scopes.names_of_decls (decls_of (map decl_tree decls.now))) }
{
    for decl in decls {
        name_decl(decl, scope)?;
    }
    Ok(())
}

/// The names of a block as they stand in it, before anything is known of what they mean.
pub fn names_of_block<'t, 'a>(
    alloc: Global,
    decls: &'t [Decl],
    items: &'t [Item],
) -> Result<KnownScope<'t, 'a>, AllocError>
    ensures { IfOk result (λ s. s ≡ scopes.names_of_block (decls_of (map decl_tree decls.now))
        (items_of (map item_tree items.now))) }
{
    let mut scope = KnownScope::new(alloc);
    name_decls(decls, &mut scope)?;
    declare_labels(items, &mut scope)?;
    Ok(scope)
}

// ---- what its declarations make of its names

/// Declares simple variables.
fn declare_simple<'t, 'a>(
    alloc: Global,
    arena: &'a Bump,
    path: &KnownPath<'_, '_, 'a>,
    spec: &TypeSpec,
    names: &'t Names,
    scope: &mut KnownScope<'t, 'a>,
) -> Result<(), AllocError>
    ensures { OnOk result (scope.new ≡ scope.old
        ++ scopes.entries names.now.items (scopes.good (scopes.spec_faults path.now (spec_tree spec.now))
        (meanings.a_variable (scopes.spec_type path.now (spec_tree spec.now))))) }
{
    let mut faults = Vec::new(alloc);
    spec_faults(path, spec, &mut faults)?;
    let variable = Meaning::Variable(spec_type(arena, path, spec)?);
    declare_names(arena, names, good(&faults, variable), scope)
}

/// Declares arrays of so many dimensions, in whose bounds these faults were found.
fn declare_array<'t, 'a>(
    alloc: Global,
    arena: &'a Bump,
    path: &KnownPath<'_, '_, 'a>,
    spec: &TypeSpec,
    names: &'t Names,
    dimensions: usize,
    found: &[Diagnostic],
    scope: &mut KnownScope<'t, 'a>,
) -> Result<(), AllocError>
    ensures { OnOk result (scope.new ≡ scope.old
        ++ scopes.entries names.now.items (scopes.good
        (rules.array_faults path.now (spec_tree spec.now) names.now.items dimensions
        ++ scopes.without_twice found.now) (meanings.an_array
        (scopes.spec_type path.now (spec_tree spec.now)) dimensions))) }
{
    let Ok(count) = u32::try_from(dimensions) else {
        return Err(AllocError);
    };
    let mut faults = Vec::new(alloc);
    spec_faults(path, spec, &mut faults)?;
    dimension_fault(names, dimensions, &mut faults)?;
    add_without_twice(found, &mut faults)?;
    let array = Meaning::Array(spec_type(arena, path, spec)?, count);
    declare_names(arena, names, good(&faults, array), scope)
}

/// Adds the faults that make a declaration faulty: all but 31.
fn add_without_twice(found: &[Diagnostic], faults: &mut Vec<Diagnostic>) -> Result<(), AllocError>
    ensures { OnOk result (faults.new.items ≡ faults.old.items ++ scopes.without_twice found.now) }
{
    for fault in found {
        if fault.number != Diagnostic::NAME_DECLARED_TWICE {
            faults.push(*fault)?;
        }
    }
    Ok(())
}

/// Declares a procedure.
fn declare_procedure<'t, 'a>(
    alloc: Global,
    arena: &'a Bump,
    path: &KnownPath<'_, '_, 'a>,
    procedure: &'t ProcDecl,
    scope: &mut KnownScope<'t, 'a>,
) -> Result<(), AllocError>
    ensures { (around : scopes.Scopes) → OnOk result
        (scope.new ≡ scope.old ++ rules.meanings_of around path.now (procedure_tree procedure.now)) }
{
    let mut faults = Vec::new(alloc);
    result_faults(path, &procedure.result, &mut faults)?;
    formal_faults(path, &procedure.formals, &mut faults)?;
    let result_type = result_type(arena, path, &procedure.result)?;
    let formals = formal_types(alloc, arena, path, &procedure.formals)?;
    let declared = arena.try_alloc(Declared {
        is_class: false,
        reading: Reading::ForFormals(formals),
        means: good(&faults, Meaning::Procedure(result_type, formals)),
    })?;
    scope.declare(&procedure.name, Facts::Declared(declared))
}

/// Declares what a declaration with these bounds makes of its names.
pub fn declare<'t, 'a>(
    alloc: Global,
    arena: &'a Bump,
    path: &KnownPath<'_, '_, 'a>,
    decl: &'t Decl,
    bounds: Bounds<'a>,
    scope: &mut KnownScope<'t, 'a>,
) -> Result<(), AllocError>
    ensures { (around : scopes.Scopes) → bounds_view bounds.entry ≡ decl_bounds around (decl_tree decl.now)
        → OnOk result (scope.new ≡ scope.old ++ rules.meanings_of around path.now (decl_tree decl.now)) }
{
    match decl {
        Decl::Simple(spec, names) => declare_simple(alloc, arena, path, spec, names, scope),
        Decl::Array(spec, names, sizes) => {
            let dimensions = sizes.len();
            declare_array(
                alloc,
                arena,
                path,
                spec,
                names,
                dimensions,
                bounds.faults,
                scope,
            )
        }
        Decl::Proc(procedure) => declare_procedure(alloc, arena, path, procedure, scope),
        Decl::Class(class) => declare_class(alloc, arena, path, class, scope),
    }
}

// ---- the declarations themselves

/// The verdict of bounds, at `::`.
pub fn bound_verdict<'a>(place: Place, lower: Verdict<'a>, upper: Verdict<'a>) -> Verdict<'a>
    ensures { view.verdict result ≡ verdicts.two_parts (verdicts.type_of (view.verdict lower.entry))
        (verdicts.type_of (view.verdict upper.entry)) (rows.bound_row place) }
{
    match (lower, upper) {
        (Ok(lower), Ok(upper)) => bound_row(place, lower, upper),
        _ => Err(NoType::Silent),
    }
}

/// Adds the faults and the findings of simple variables.
pub fn simple<'a>(
    arena: &'a Bump,
    path: &KnownPath<'_, '_, 'a>,
    spec: &TypeSpec,
    log: &mut Log<'a>,
) -> Result<(), AllocError>
    ensures found { (xs : List Placed) → OnOk result (DeclFound log.old log.new
        (rules.simple_out path.now (spec_tree spec.now) xs)) }
    ensures notes { OnOk result (Notes log.old log.new nothing) }
{
    spec_faults(path, spec, &mut log.faults)?;
    log_type(arena, path, spec, log)
}

/// Adds the faults and the findings of arrays of so many dimensions, with these bounds, and what is noted in them.
pub fn array<'a>(
    arena: &'a Bump,
    path: &KnownPath<'_, '_, 'a>,
    spec: &TypeSpec,
    names: &Names,
    dimensions: usize,
    bounds: Bounds<'a>,
    log: &mut Log<'a>,
) -> Result<(), AllocError>
    ensures found { (o : rules.BoundsOut) → bounds_view bounds.entry ≡ bounds_found o
        → OnOk result (DeclFound log.old log.new
        (rules.array_out path.now (spec_tree spec.now) names.now.items dimensions o)) }
    ensures notes { OnOk result (Notes log.old log.new (bounds_notes bounds.entry)) }
{
    spec_faults(path, spec, &mut log.faults)?;
    dimension_fault(names, dimensions, &mut log.faults)?;
    log.faults.extend_from_slice(bounds.faults)?;
    log_type(arena, path, spec, log)?;
    log.findings.extend_from_slice(bounds.findings)?;
    log.names.extend_from_slice(bounds.names)?;
    log.classes.extend_from_slice(bounds.classes)?;
    Ok(())
}

/// Adds the faults and the findings of a record class, and notes it.
pub fn class<'a>(
    alloc: Global,
    arena: &'a Bump,
    path: &KnownPath<'_, '_, 'a>,
    class: &ClassDecl,
    log: &mut Log<'a>,
) -> Result<(), AllocError>
    ensures found { OnOk result (DeclFound log.old log.new
        (rules.class_out path.now (class_tree class.now))) }
    ensures notes { OnOk result (Notes log.old log.new
        (class_naming (names_along path.now) (class_tree class.now))) }
{
    group_faults(path, class, &mut log.faults)?;
    log_groups(arena, path, class, log)?;
    note_class(alloc, arena, path, class, &mut log.classes)
}
