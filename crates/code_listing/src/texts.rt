ghost use Rattle.std.specs.Prelude.{◌<◌, length};
ghost use Rattle.stack_code.specs.CodeView.{ConstantFits, GivenFits};
ghost use Rattle.stack_code.specs.Limits.{KindRuns, KindsRun};

use stack_code::{Code, Constant, Source};
use std::alloc::AllocError;
use value_ops::{ClassId, Place, SetId, SimpleType};

/// Writes bytes, each as a character, behind a front.
pub(crate) fn push_bytes(out: &mut String, front: &str, bytes: &[u8]) -> Result<(), AllocError> {
    out.push_str(front)?;
    for byte in bytes {
        out.push(char::from(*byte))?;
    }
    Ok(())
}

/// Writes a name, by its number.
pub(crate) fn push_name(
    out: &mut String,
    code: &Code,
    front: &str,
    name: u32,
) -> Result<(), AllocError>
    requires { name < length code.now.given.names }
{
    push_bytes(out, front, code.name(name).text.as_slice())
}

/// Writes the name of a record class.
pub(crate) fn push_class(
    out: &mut String,
    code: &Code,
    front: &str,
    class: ClassId,
) -> Result<(), AllocError>
    requires { class.0 < length code.now.given.classes.classes }
{
    push_bytes(out, front, code.class_name(class).as_slice())
}

/// Writes a type, as declarations have it.
pub(crate) fn push_type(
    out: &mut String,
    code: &Code,
    front: &str,
    kind: SimpleType,
) -> Result<(), AllocError>
    requires whole { GivenFits code.now.given }
    requires runs { KindRuns code.now.given kind }
{
    out.push_str(front)?;
    match kind {
        SimpleType::Integer => out.push_str("INTEGER"),
        SimpleType::Logical => out.push_str("LOGICAL"),
        SimpleType::Bits => out.push_str("BITS"),
        SimpleType::Str(length) => write!(out, "STRING({length})"),
        SimpleType::Reference(set) => push_reference(out, code, set),
    }
}

/// Writes the type of references to the classes of a set.
fn push_reference(out: &mut String, code: &Code, set: SetId) -> Result<(), AllocError>
    requires whole { GivenFits code.now.given }
    requires there { set.0 < length code.now.given.classes.sets }
{
    out.push_str("REFERENCE(")?;
    let mut front = "";
    for class in code.set_classes(set) {
        push_class(out, code, front, *class)?;
        front = ", ";
    }
    out.push(')')
}

/// Writes a type where there is one.
pub(crate) fn push_type_perhaps(
    out: &mut String,
    code: &Code,
    front: &str,
    kind: Option<SimpleType>,
) -> Result<(), AllocError>
    requires whole { GivenFits code.now.given }
    requires runs { KindsRun code.now.given kind }
{
    match kind {
        Some(kind) => push_type(out, code, front, kind),
        None => Ok(()),
    }
}

/// Writes the instruction of a constant, which stands as decks have it.
pub(crate) fn push_constant(
    out: &mut String,
    code: &Code,
    constant: Constant,
) -> Result<(), AllocError>
    requires { ConstantFits code.now.added constant }
{
    match constant {
        Constant::Integer(value) => write!(out, "Constant {value}"),
        Constant::Logical(true) => out.push_str("Constant TRUE"),
        Constant::Logical(false) => out.push_str("Constant FALSE"),
        Constant::Bits(bits) => write!(out, "Constant #{bits:X}"),
        Constant::Str(number) => push_string(out, code.string(number).as_slice()),
        Constant::Null => out.push_str("Constant NULL"),
    }
}

/// Writes that of a string.
fn push_string(out: &mut String, text: &[u8]) -> Result<(), AllocError> {
    push_bytes(out, "Constant \"", text)?;
    out.push('"')
}

/// Writes a card and a column: `3,14`.
pub(crate) fn push_place(out: &mut String, front: &str, place: Place) -> Result<(), AllocError> {
    let Place { card, column } = place;
    write!(out, "{front}{card},{column}")
}

/// Writes what stands for a name: an entry as `links.position`, a procedure as `links@head`.
pub(crate) fn push_source(out: &mut String, front: &str, source: Source) -> Result<(), AllocError> {
    match source {
        Source::Entry { links, position } => write!(out, "{front}{links}.{position}"),
        Source::Head { links, head } => write!(out, "{front}{links}@{head}"),
    }
}
