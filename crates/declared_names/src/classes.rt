ghost use Rattle.std.specs.Prelude.{◌≡◌, ◌++◌, IfOk, OnOk, map};
ghost use Rattle.algolw_tree.specs.View.{class_tree, spec_tree};
ghost use Rattle.algolw_typing.specs.Naming.{class_fields, class_naming, fields_of};
ghost use Rattle.algolw_typing.specs.Scopes as rules;
ghost use Rattle.typing_rules.specs.View.{value_type};
ghost use Rattle.typed_findings.specs.ClassView.{class_view, field_view};
ghost use Rattle.declared_names.specs.NamesAlong.{names_along};

use crate::declarations::spec_type;
use crate::path::KnownPath;
use algolw_tree::{ClassDecl, Names, TypeSpec};
use bumpalo::Bump;
use std::alloc::{AllocError, Global};
use typed_findings::{Field, FoundClass, name_of};
use typing_rules::ValueType;

/// Notes a record class.
pub(crate) fn note_class<'a>(
    alloc: Global,
    arena: &'a Bump,
    path: &KnownPath,
    class: &ClassDecl,
    classes: &mut Vec<FoundClass<'a>>,
) -> Result<(), AllocError>
    ensures { OnOk result (map class_view classes.new.items ≡ map class_view classes.old.items
        ++ (class_naming (names_along path.now) (class_tree class.now)).classes) }
{
    let fields = class_fields(alloc, arena, path, class)?;
    let (name, place) = &class.name;
    let found = FoundClass {
        place: *place,
        name: name_of(name)?,
        fields,
    };
    if classes.push(found).is_err() {
        return Err(AllocError);
    }
    Ok(())
}

/// The fields of a record class, in the arena.
fn class_fields<'a>(
    alloc: Global,
    arena: &'a Bump,
    path: &KnownPath,
    class: &ClassDecl,
) -> Result<&'a [Field<'a>], AllocError>
    ensures { IfOk result (λ fields. map field_view fields.now
        ≡ class_fields (names_along path.now) (class_tree class.now).groups) }
{
    let mut fields = Vec::new(alloc);
    for (spec, names) in &class.groups {
        let field_type = field_type(arena, path, spec)?;
        add_fields(names, field_type, &mut fields)?;
    }
    Ok(arena.try_alloc_slice_copy(fields.as_slice())?)
}

/// The type of fields, by the names alone along the path.
fn field_type<'a>(
    arena: &'a Bump,
    path: &KnownPath,
    spec: &TypeSpec,
) -> Result<ValueType<'a>, AllocError>
    ensures { IfOk result (λ t. value_type t
        ≡ rules.spec_type (names_along path.now) (spec_tree spec.now)) }
{
    spec_type(arena, path, spec)
}

/// Adds fields of one type.
fn add_fields<'a>(
    names: &Names,
    field_type: ValueType<'a>,
    fields: &mut Vec<Field<'a>>,
) -> Result<(), AllocError>
    ensures { OnOk result (map field_view fields.new.items ≡ map field_view fields.old.items
        ++ fields_of names.now.items (value_type field_type.entry)) }
{
    for (name, _) in names {
        let field = Field {
            name: name_of(name)?,
            field_type,
        };
        if fields.push(field).is_err() {
            return Err(AllocError);
        }
    }
    Ok(())
}
