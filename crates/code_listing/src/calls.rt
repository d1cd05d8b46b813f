ghost use Rattle.std.specs.Prelude.{◌<◌, length};
ghost use Rattle.stack_code.specs.CodeView.{GivenFits, call_of};
ghost use Rattle.stack_code.specs.Limits.{KindRuns, KindsRun};

use crate::texts::{push_place, push_source, push_type, push_type_perhaps};
use stack_code::{Code, Purpose};
use std::alloc::AllocError;
use value_ops::{Place, SimpleType};

/// Writes the making of a copied actual.
pub(crate) fn push_thunk(
    out: &mut String,
    code: &Code,
    is_variable: bool,
    kind: Option<SimpleType>,
    head: u32,
) -> Result<(), AllocError>
    requires whole { GivenFits code.now.given }
    requires runs { KindsRun code.now.given kind }
{
    let front = if is_variable { " variable " } else { " " };
    write!(out, "MakeThunk @{head}")?;
    push_type_perhaps(out, code, front, kind)
}

/// Writes the making of a subarray: `Subarray 0.1 (*, i)`.
pub(crate) fn push_subarray(
    out: &mut String,
    code: &Code,
    links: u16,
    position: u32,
    stars: u32,
) -> Result<(), AllocError>
    requires { stars < length code.now.added.stars }
{
    write!(out, "Subarray {links}.{position} (")?;
    let mut front = "";
    for is_star in &code.stars(stars).are {
        let subscript = if *is_star { '*' } else { 'i' };
        write!(out, "{front}{subscript}")?;
        front = ", ";
    }
    out.push(')')
}

/// Writes an aside.
pub(crate) fn push_aside(
    out: &mut String,
    code: &Code,
    purpose: Purpose,
    kind: Option<SimpleType>,
    head: u32,
) -> Result<(), AllocError>
    requires whole { GivenFits code.now.given }
    requires runs { KindsRun code.now.given kind }
{
    let wanted = match purpose {
        Purpose::Value => "value",
        Purpose::Place => "place",
    };
    write!(out, "Aside @{head} {wanted}")?;
    push_type_perhaps(out, code, " ", kind)
}

/// Writes a call of a declared procedure.
pub(crate) fn push_call(
    out: &mut String,
    links: u16,
    site: Place,
    head: u32,
) -> Result<(), AllocError> {
    write!(out, "Call {links}@{head}")?;
    push_place(out, " ", site)
}

/// Writes that a formal is assigned back.
pub(crate) fn push_assign_back(
    out: &mut String,
    code: &Code,
    kind: SimpleType,
    formal: u32,
) -> Result<(), AllocError>
    requires whole { GivenFits code.now.given }
    requires runs { KindRuns code.now.given kind }
{
    write!(out, "AssignBack {formal}")?;
    push_type(out, code, " ", kind)
}

/// Writes the comparing of a call: what stands for its name, the texts of its actuals, and where it ends.
pub(crate) fn push_compare(out: &mut String, code: &Code, call: u32) -> Result<(), AllocError>
    requires { call < length code.now.added.calls }
{
    let compared = code.call(call);
    let front = if compared.compares() {
        "Compare "
    } else {
        "Compare nothing "
    };
    push_source(out, front, compared.source())?;
    out.push_str(" (")?;
    let mut front = "";
    for head in compared.heads() {
        write!(out, "{front}@{head}")?;
        front = ", ";
    }
    let end = compared.end();
    write!(out, ") @{end}")
}

/// Writes the preparing of an actual of such a call.
pub(crate) fn push_prepare(
    out: &mut String,
    code: &Code,
    call: u32,
    formal: u32,
) -> Result<(), AllocError>
    requires call { call < length code.now.added.calls }
    requires formal { formal < length (call_of code.now.added call).heads }
{
    let compared = code.call(call);
    let head = compared.heads()[formal as usize];
    push_source(out, "Prepare ", compared.source())?;
    write!(out, " {formal} @{head}")
}

/// Writes such a call.
pub(crate) fn push_call_through(
    out: &mut String,
    code: &Code,
    site: Place,
    call: u32,
) -> Result<(), AllocError>
    requires { call < length code.now.added.calls }
{
    push_source(out, "CallThrough ", code.call(call).source())?;
    push_place(out, " ", site)
}
