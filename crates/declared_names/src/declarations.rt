ghost use Rattle.std.specs.Prelude.{◌≡◌, ◌++◌, ◌∷◌, [], Some, IfOk, OnOk, map};
ghost use Rattle.std.specs.Option.{option_map};
ghost use Rattle.algolw_tree.specs.View.{spec_tree, formal_tree, class_tree};
ghost use Rattle.algolw_typing.specs.Scopes as rules;
ghost use Rattle.algolw_typing.specs.Names.{declared};
ghost use Rattle.algolw_typing.specs.Typing.{typed_formals, typed_groups};
ghost use Rattle.algolw_typing.specs.Verdicts.{diagnostic};
ghost use Rattle.typing_rules.specs.View.{classes_of, value_type};
ghost use Rattle.typing_rules.specs.MeaningView as view;
ghost use Rattle.typed_findings.specs.Findings.{as_type, finding_view, formals_found, groups_found};
ghost use Rattle.algolw_typing.specs.Naming.{nothing};
ghost use Rattle.typed_findings.specs.Noted.{Notes};
ghost use Rattle.declared_names.specs.KnownView.{alike, facts_view};

use crate::known::{Declared, Facts, KnownScope};
use crate::path::KnownPath;
use algolw_tree::{ClassDecl, Formal, Mode, Names, Spelling, TypeSpec};
use bumpalo::Bump;
use std::alloc::{AllocError, Global};
use typed_findings::{Finding, Log};
use typing_rules::{ClassSet, FormalType, Meaning, Reading, ValueType};
use value_ops::{Diagnostic, Place};

/// Adds a fault.
fn add_fault(number: u8, place: Place, faults: &mut Vec<Diagnostic>) -> Result<(), AllocError>
    ensures { OnOk result (faults.new.items ≡ faults.old.items ++ diagnostic number place) }
{
    faults.push(Diagnostic { place, number })?;
    Ok(())
}

/// Adds the fault of a name where a class is wanted: 30 for one that is not declared, 33 for one that is no class.
pub fn class_fault(
    path: &KnownPath,
    class: &(Spelling, Place),
    faults: &mut Vec<Diagnostic>,
) -> Result<(), AllocError>
    ensures { OnOk result (faults.new.items ≡ faults.old.items
        ++ rules.class_fault class.now (declared path.now class.now.0)) }
{
    match path.declared(&class.0) {
        None => add_fault(Diagnostic::NAME_NOT_DECLARED, class.1, faults),
        Some(known) if known.is_class => Ok(()),
        Some(_) => add_fault(Diagnostic::NOT_A_RECORD_CLASS, class.1, faults),
    }
}

/// Adds the faults of names where classes are wanted.
fn class_faults(
    path: &KnownPath,
    classes: &Names,
    faults: &mut Vec<Diagnostic>,
) -> Result<(), AllocError>
    ensures { OnOk result (faults.new.items ≡ faults.old.items
        ++ rules.class_faults path.now classes.now.items) }
{
    for class in classes {
        class_fault(path, class, faults)?;
    }
    Ok(())
}

/// A number as it is written, without a sign.
fn written(number: i32) -> u32
    ensures { result ≡ rules.written number }
{
    u32::try_from(number).unwrap_or(0)
}

/// Adds the faults of a type as it is written: 32 of a length or a width, 30 and 33 of the names of classes.
pub(crate) fn spec_faults(
    path: &KnownPath,
    spec: &TypeSpec,
    faults: &mut Vec<Diagnostic>,
) -> Result<(), AllocError>
    ensures { OnOk result (faults.new.items ≡ faults.old.items
        ++ rules.spec_faults path.now (spec_tree spec.now)) }
{
    match spec {
        TypeSpec::Bits(Some((width, place))) if written(*width) != 32 => {
            add_fault(Diagnostic::NUMBER_OUT_OF_RANGE, *place, faults)
        }
        TypeSpec::Str(Some((length, place))) if !(1..=256).contains(&written(*length)) => {
            add_fault(Diagnostic::NUMBER_OUT_OF_RANGE, *place, faults)
        }
        TypeSpec::Reference(classes) => class_faults(path, classes, faults),
        _ => Ok(()),
    }
}

/// The set of the classes that names mean here, in the arena.
fn class_set<'a>(
    arena: &'a Bump,
    path: &KnownPath,
    names: &Names,
) -> Result<ClassSet<'a>, AllocError>
    ensures { IfOk result (λ set. classes_of set ≡ rules.class_set path.now names.now.items) }
{
    let mut classes = Vec::with_capacity(arena, names.len())?;
    for (name, _) in names {
        if let Some(known) = path.declared(name) {
            classes.push(known.place)?;
        }
    }
    ClassSet::new(arena, classes)
}

/// The type that is written.
pub(crate) fn spec_type<'a>(
    arena: &'a Bump,
    path: &KnownPath,
    spec: &TypeSpec,
) -> Result<ValueType<'a>, AllocError>
    ensures { IfOk result (λ t. value_type t ≡ rules.spec_type path.now (spec_tree spec.now)) }
{
    Ok(match spec {
        TypeSpec::Integer => ValueType::Integer,
        TypeSpec::Logical => ValueType::Logical,
        TypeSpec::Bits(_) => ValueType::Bits,
        TypeSpec::Str(None) => ValueType::Str(16),
        TypeSpec::Str(Some((length, _))) => ValueType::Str(written(*length)),
        TypeSpec::Reference(classes) => ValueType::Reference(class_set(arena, path, classes)?),
    })
}

/// Adds the faults of a type that may be missing.
pub(crate) fn result_faults(
    path: &KnownPath,
    spec: &Option<TypeSpec>,
    faults: &mut Vec<Diagnostic>,
) -> Result<(), AllocError>
    ensures { OnOk result (faults.new.items ≡ faults.old.items
        ++ rules.result_faults path.now (option_map spec_tree spec.now)) }
{
    match spec {
        None => Ok(()),
        Some(spec) => spec_faults(path, spec, faults),
    }
}

/// The type that is written, where one is.
pub(crate) fn result_type<'a>(
    arena: &'a Bump,
    path: &KnownPath,
    spec: &Option<TypeSpec>,
) -> Result<Option<ValueType<'a>>, AllocError>
    ensures { IfOk result (λ t. option_map value_type t
        ≡ rules.result_type path.now (option_map spec_tree spec.now)) }
{
    match spec {
        None => Ok(None),
        Some(spec) => Ok(Some(spec_type(arena, path, spec)?)),
    }
}

/// Adds the fault of names that are declared with so many dimensions: 32 at the first for more than 8.
pub(crate) fn dimension_fault(
    names: &Names,
    dimensions: usize,
    faults: &mut Vec<Diagnostic>,
) -> Result<(), AllocError>
    ensures { OnOk result (faults.new.items ≡ faults.old.items ++ rules.dimension_fault names.now.items dimensions) }
{
    match names.first() {
        Some((_, place)) if dimensions > 8 => add_fault(
            Diagnostic::NUMBER_OUT_OF_RANGE,
            *place,
            faults,
        ),
        _ => Ok(()),
    }
}

/// Adds the faults of formals that are declared together.
fn formal_fault(
    path: &KnownPath,
    formal: &Formal,
    faults: &mut Vec<Diagnostic>,
) -> Result<(), AllocError>
    ensures { OnOk result (faults.new.items ≡ faults.old.items
        ++ rules.formal_fault path.now (formal_tree formal.now)) }
{
    result_faults(path, &formal.spec, faults)?;
    dimension_fault(&formal.names, formal.dimensions as usize, faults)
}

/// Adds the faults of formals.
pub(crate) fn formal_faults(
    path: &KnownPath,
    formals: &[Formal],
    faults: &mut Vec<Diagnostic>,
) -> Result<(), AllocError>
    ensures { OnOk result (faults.new.items ≡ faults.old.items
        ++ rules.formal_faults path.now (map formal_tree formals.now)) }
{
    for formal in formals {
        formal_fault(path, formal, faults)?;
    }
    Ok(())
}

/// A formal as calls see it, by how it is passed, its number of dimensions and its type.
fn formal_type<'a>(mode: Mode, dimensions: u32, spec: Option<ValueType<'a>>) -> FormalType<'a>
    ensures { view.formal_type result ≡ rules.formal_type mode dimensions (option_map value_type spec.entry) }
{
    let Some(value_type) = spec else {
        return FormalType::Procedure(None);
    };
    match mode {
        Mode::ByName => FormalType::ByName(value_type),
        Mode::Value => FormalType::ByValue(value_type),
        Mode::Result => FormalType::ByResult(value_type),
        Mode::ValueResult => FormalType::ByValueResult(value_type),
        Mode::Array => FormalType::Array(value_type, dimensions),
        Mode::Procedure => FormalType::Procedure(spec),
    }
}

/// A meaning, where there are no faults.
pub(crate) fn good<'a>(faults: &[Diagnostic], meaning: Meaning<'a>) -> Option<Meaning<'a>>
    ensures { option_map view.meaning result ≡ rules.good faults.now (view.meaning meaning.entry) }
{
    if faults.is_empty() {
        Some(meaning)
    } else {
        None
    }
}

/// What a formal is in the body.
fn formal_meaning<'a>(formal: FormalType<'a>) -> Meaning<'a>
    ensures { view.meaning result ≡ rules.formal_meaning (view.formal_type formal.entry) }
{
    match formal {
        FormalType::Procedure(result_type) => Meaning::ProcedureFormal(result_type),
        FormalType::Array(value_type, dimensions) => Meaning::Array(value_type, dimensions),
        FormalType::ByName(value_type)
        | FormalType::ByValue(value_type)
        | FormalType::ByResult(value_type)
        | FormalType::ByValueResult(value_type) => Meaning::Variable(value_type),
    }
}

/// How the parts of a list behind a formal are read.
fn formal_reading<'a>(formal: FormalType<'_>) -> Reading<'a>
    ensures { view.reading result ≡ rules.formal_reading (view.formal_type formal.entry) }
{
    match formal {
        FormalType::Procedure(_) => Reading::AtRunTime,
        _ => Reading::AsPhrases,
    }
}

/// Declares names of which the same is known.
pub(crate) fn declare_alike<'t, 'a>(
    names: &'t [(Spelling, Place)],
    facts: Facts<'a>,
    scope: &mut KnownScope<'t, 'a>,
) -> Result<(), AllocError>
    ensures { OnOk result (scope.new ≡ scope.old ++ alike names.now (facts_view facts.entry)) }
{
    for name in names {
        scope.declare(name, facts)?;
    }
    Ok(())
}

/// Declares names that are read and mean alike.
#[tactic(auto, using(crate::proofs::Placing::alike_formals))]
fn declare_each<'t, 'a>(
    arena: &'a Bump,
    names: &'t Names,
    reading: Reading<'a>,
    means: Option<Meaning<'a>>,
    scope: &mut KnownScope<'t, 'a>,
) -> Result<(), AllocError>
    ensures { OnOk result (scope.new ≡ scope.old
        ++ rules.formal_entries names.now.items (view.reading reading.entry) (option_map view.meaning means.entry)) }
{
    let declared = arena.try_alloc(Declared {
        is_class: false,
        reading,
        means,
    })?;
    declare_alike(names, Facts::Declared(declared), scope)
}

/// Adds formals that are declared together as calls see them.
fn add_formal_types<'a>(
    arena: &'a Bump,
    path: &KnownPath,
    formal: &Formal,
    types: &mut Vec<FormalType<'a>>,
) -> Result<(), AllocError>
    ensures { OnOk result (map view.formal_type types.new.items ≡ map view.formal_type types.old.items
        ++ rules.same_formals formal.now.names.items
        (rules.formal_type formal.now.mode formal.now.dimensions
        (rules.result_type path.now (option_map spec_tree formal.now.spec)))) }
{
    let spec = result_type(arena, path, &formal.spec)?;
    let formal_type = formal_type(formal.mode, formal.dimensions, spec);
    for _name in &formal.names {
        types.push(formal_type)?;
    }
    Ok(())
}

/// The formals as calls see them, one for each name.
pub(crate) fn formal_types<'a>(
    alloc: Global,
    arena: &'a Bump,
    path: &KnownPath,
    formals: &[Formal],
) -> Result<&'a [FormalType<'a>], AllocError>
    ensures { IfOk result (λ ts. map view.formal_type ts.now
        ≡ rules.formal_types path.now (map formal_tree formals.now)) }
{
    let mut types = Vec::new(alloc);
    for formal in formals {
        add_formal_types(arena, path, formal, &mut types)?;
    }
    Ok(arena.try_alloc_slice_copy(types.as_slice())?)
}

/// Declares formals that are declared together round the body.
fn declare_formal<'t, 'a>(
    alloc: Global,
    arena: &'a Bump,
    path: &KnownPath,
    formal: &'t Formal,
    scope: &mut KnownScope<'t, 'a>,
) -> Result<(), AllocError>
    ensures { OnOk result (scope.new ≡ scope.old
        ++ rules.formal_scope path.now (formal_tree formal.now ∷ [])) }
{
    let mut faults = Vec::new(alloc);
    formal_fault(path, formal, &mut faults)?;
    let spec = result_type(arena, path, &formal.spec)?;
    let formal_type = formal_type(formal.mode, formal.dimensions, spec);
    let means = good(&faults, formal_meaning(formal_type));
    declare_each(
        arena,
        &formal.names,
        formal_reading(formal_type),
        means,
        scope,
    )
}

/// The scope that a formal list declares round the body.
pub fn formal_scope<'t, 'a>(
    alloc: Global,
    arena: &'a Bump,
    path: &KnownPath,
    formals: &'t [Formal],
) -> Result<KnownScope<'t, 'a>, AllocError>
    ensures { IfOk result (λ s. s ≡ rules.formal_scope path.now (map formal_tree formals.now)) }
{
    let mut scope = KnownScope::new(alloc);
    for formal in formals {
        declare_formal(alloc, arena, path, formal, &mut scope)?;
    }
    Ok(scope)
}

/// Adds the finding of a type that is written.
pub(crate) fn log_type<'a>(
    arena: &'a Bump,
    path: &KnownPath,
    spec: &TypeSpec,
    log: &mut Log<'a>,
) -> Result<(), AllocError>
    ensures faults { OnOk result (log.new.faults.items ≡ log.old.faults.items) }
    ensures findings { OnOk result (map finding_view log.new.findings.items
        ≡ map finding_view log.old.findings.items
        ++ as_type (Some (rules.spec_type path.now (spec_tree spec.now))) ∷ []) }
    ensures notes { OnOk result (Notes log.old log.new nothing) }
{
    let found_type = spec_type(arena, path, spec)?;
    log.add(Finding::of_type(Some(found_type)))
}

/// Adds the findings of formals: of those that are declared together their type, or that they have none.
pub(crate) fn log_formals<'a>(
    arena: &'a Bump,
    path: &KnownPath,
    formals: &[Formal],
    log: &mut Log<'a>,
) -> Result<(), AllocError>
    ensures faults { OnOk result (log.new.faults.items ≡ log.old.faults.items) }
    ensures findings { OnOk result (map finding_view log.new.findings.items
        ≡ map finding_view log.old.findings.items
        ++ formals_found (typed_formals path.now (map formal_tree formals.now))) }
    ensures notes { OnOk result (Notes log.old log.new nothing) }
{
    for formal in formals {
        let found_type = result_type(arena, path, &formal.spec)?;
        log.add(Finding::of_type(found_type))?;
    }
    Ok(())
}

/// Adds the faults of the fields of a class.
pub(crate) fn group_faults(
    path: &KnownPath,
    class: &ClassDecl,
    faults: &mut Vec<Diagnostic>,
) -> Result<(), AllocError>
    ensures { OnOk result (faults.new.items ≡ faults.old.items
        ++ rules.group_faults path.now (class_tree class.now).groups) }
{
    for (spec, _) in &class.groups {
        spec_faults(path, spec, faults)?;
    }
    Ok(())
}

/// Adds the findings of the fields of a class: the type of those that are declared together.
pub(crate) fn log_groups<'a>(
    arena: &'a Bump,
    path: &KnownPath,
    class: &ClassDecl,
    log: &mut Log<'a>,
) -> Result<(), AllocError>
    ensures faults { OnOk result (log.new.faults.items ≡ log.old.faults.items) }
    ensures findings { OnOk result (map finding_view log.new.findings.items
        ≡ map finding_view log.old.findings.items
        ++ groups_found (typed_groups path.now (class_tree class.now).groups)) }
    ensures notes { OnOk result (Notes log.old log.new nothing) }
{
    for (spec, _) in &class.groups {
        log_type(arena, path, spec, log)?;
    }
    Ok(())
}

/// The types of the fields of a class, in the arena.
fn field_types<'a>(
    alloc: Global,
    arena: &'a Bump,
    path: &KnownPath,
    class: &ClassDecl,
) -> Result<&'a [ValueType<'a>], AllocError>
    ensures { IfOk result (λ ts. map value_type ts.now
        ≡ rules.field_types path.now (class_tree class.now).groups) }
{
    let mut types = Vec::new(alloc);
    for (spec, names) in &class.groups {
        let field_type = spec_type(arena, path, spec)?;
        add_types(names, field_type, &mut types)?;
    }
    Ok(arena.try_alloc_slice_copy(types.as_slice())?)
}

/// Adds the type of fields, once for each.
fn add_types<'a>(
    names: &Names,
    field_type: ValueType<'a>,
    types: &mut Vec<ValueType<'a>>,
) -> Result<(), AllocError>
    ensures { OnOk result (map value_type types.new.items ≡ map value_type types.old.items
        ++ rules.same_types names.now.items (value_type field_type.entry)) }
{
    for _name in names {
        types.push(field_type)?;
    }
    Ok(())
}

/// Declares the fields of a class that is found to have these faults.
fn declare_fields<'t, 'a>(
    arena: &'a Bump,
    path: &KnownPath,
    class: &'t ClassDecl,
    faults: &[Diagnostic],
    scope: &mut KnownScope<'t, 'a>,
) -> Result<(), AllocError>
    ensures { OnOk result (scope.new ≡ scope.old
        ++ rules.field_entries path.now faults.now class.now.name.1 (class_tree class.now).groups) }
{
    for (spec, names) in &class.groups {
        let field = Meaning::Field(class.name.1, spec_type(arena, path, spec)?);
        declare_names(arena, names, good(faults, field), scope)?;
    }
    Ok(())
}

/// Declares a class and its fields.
pub(crate) fn declare_class<'t, 'a>(
    alloc: Global,
    arena: &'a Bump,
    path: &KnownPath,
    class: &'t ClassDecl,
    scope: &mut KnownScope<'t, 'a>,
) -> Result<(), AllocError>
    ensures { OnOk result (scope.new ≡ scope.old ++ rules.class_entries path.now (class_tree class.now)) }
{
    let mut faults = Vec::new(alloc);
    group_faults(path, class, &mut faults)?;
    let fields = field_types(alloc, arena, path, class)?;
    let declared = arena.try_alloc(Declared {
        is_class: true,
        reading: Reading::AsPhrases,
        means: good(&faults, Meaning::Class(fields)),
    })?;
    scope.declare(&class.name, Facts::Declared(declared))?;
    declare_fields(arena, path, class, &faults, scope)
}

/// Declares names that mean the same, or whose declaration is faulty.
#[tactic(auto, using(crate::proofs::Placing::entries_alike))]
pub(crate) fn declare_names<'t, 'a>(
    arena: &'a Bump,
    names: &'t Names,
    means: Option<Meaning<'a>>,
    scope: &mut KnownScope<'t, 'a>,
) -> Result<(), AllocError>
    ensures { OnOk result (scope.new ≡ scope.old
        ++ rules.entries names.now.items (option_map view.meaning means.entry)) }
{
    declare_each(arena, names, Reading::AsPhrases, means, scope)
}

/// Adds a 31 for each name that a scope declares a second time.
pub fn twice(scope: &KnownScope, faults: &mut Vec<Diagnostic>) -> Result<(), AllocError>
    ensures { OnOk result (faults.new.items ≡ faults.old.items ++ rules.twice [] scope.now) }
{
    for position in 0..scope.len() {
        if let Some(place) = scope.second_at(position) {
            add_fault(Diagnostic::NAME_DECLARED_TWICE, place, faults)?;
        }
    }
    Ok(())
}
