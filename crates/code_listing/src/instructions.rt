ghost use Rattle.std.specs.Prelude.{◌<◌, length};
ghost use Rattle.stack_code.specs.CodeView.{GivenFits};
ghost use Rattle.stack_code.specs.Limits.{InstrRuns, KindRuns};

use crate::calls::{
    push_aside, push_assign_back, push_call, push_call_through, push_compare, push_prepare,
    push_subarray, push_thunk,
};
use crate::heads::{push_procedure, push_text};
use crate::texts::{push_class, push_constant, push_name, push_place, push_source, push_type};
use algolw_tree::Width;
use stack_code::{Code, Instr, Mode};
use std::alloc::AllocError;
use std::fmt::Debug;
use value_ops::{ClassId, SimpleType};

/// Writes an instruction, with what its numbers stand for. There `@k` is an instruction, `links.position` an entry,
/// `links@head` a procedure, and `card,column` a place.
pub(crate) fn push_instruction(out: &mut String, code: &Code, does: Instr) -> Result<(), AllocError>
    requires whole { GivenFits code.now.given }
    requires runs { InstrRuns code.now.given code.now.added does }
{
    match does {
        Instr::Nothing => out.push_str("Nothing"),
        Instr::Constant(constant) => push_constant(out, code, constant),
        Instr::Variable {
            mode,
            links,
            position,
        } => push_use(out, "Variable", mode, links, position),
        Instr::Standard { mode, width } => push_standard(out, mode, width),
        Instr::Push => out.push_str("Push"),
        Instr::Reserve => out.push_str("Reserve"),
        Instr::Unary(op) => push_operator(out, "Unary ", &op),
        Instr::Binary(op) => push_operator(out, "Binary ", &op),
        Instr::Relation(op) => push_operator(out, "Relation ", &op),
        Instr::IsClass(class) => push_class(out, code, "IsClass ", class),
        Instr::Element {
            mode,
            links,
            position,
            count,
        } => push_element(out, mode, links, position, count),
        Instr::Field {
            mode,
            class,
            position,
        } => push_field(out, code, mode, class, position),
        Instr::Part { whole, count } => push_part(out, whole, count),
        Instr::Make(kind) => push_type(out, code, "Make ", kind),
        Instr::MakeRecord { class, count } => push_record(out, code, "MakeRecord", class, count),
        Instr::MakeRecordAlone { class, count } => {
            push_record(out, code, "MakeRecordAlone", class, count)
        }
        Instr::Begin => out.push_str("Begin"),
        Instr::Jump(target) => push_number(out, "Jump @", target),
        Instr::JumpUnless(target) => push_number(out, "JumpUnless @", target),
        Instr::Choose(count) => push_number(out, "Choose ", count),
        Instr::Assign { kind, gives: true } => push_type(out, code, "Assign giving ", kind),
        Instr::Assign { kind, gives: false } => push_type(out, code, "Assign ", kind),
        Instr::Assert => out.push_str("Assert"),
        Instr::SetWidth { width, position } => {
            push_operator(out, "SetWidth ", &width)?;
            push_widths(out, position)
        }
        Instr::Write {
            first: true,
            position,
        } => push_write(out, "Write new", position),
        Instr::Write {
            first: false,
            position,
        } => push_write(out, "Write on", position),
        Instr::CloseWidths { position } => push_number(out, "CloseWidths 0.", position),
        Instr::Read { next: true, kind } => push_type(out, code, "Read new ", kind),
        Instr::Read { next: false, kind } => push_type(out, code, "Read on ", kind),
        Instr::ReadCard(kind) => push_type(out, code, "ReadCard ", kind),
        Instr::IoControl => out.push_str("IoControl"),
        Instr::Goto {
            links,
            position,
            target,
        } => push_goto(out, links, position, target),
        Instr::Again(target) => push_number(out, "Again @", target),
        Instr::FirstTurn(target) => push_number(out, "FirstTurn @", target),
        Instr::Turn { name } => push_name(out, code, "Turn ", name),
        Instr::NextTurn { target, position } => push_next_turn(out, target, position),
        Instr::ListTurn { target, name } => push_list_turn(out, code, target, name),
        Instr::EndTurn { position } => push_number(out, "EndTurn 0.", position),
        Instr::EnterBlock(place) => push_place(out, "EnterBlock ", place),
        Instr::Declare { name } => push_name(out, code, "Declare ", name),
        Instr::Bounds(count) => push_number(out, "Bounds ", count),
        Instr::DeclareArray { kind, name } => push_array_declared(out, code, kind, name),
        Instr::Declared => out.push_str("Declared"),
        Instr::LeaveBlock { position } => push_number(out, "LeaveBlock 0.", position),
        Instr::Procedure { head, behind } => push_procedure(out, code, head, behind),
        Instr::Text { head, behind } => push_text(out, code, head, behind),
        Instr::HandOn(source) => push_source(out, "HandOn ", source),
        Instr::MakeThunk {
            is_variable,
            kind,
            head,
        } => push_thunk(out, code, is_variable, kind, head),
        Instr::Subarray {
            links,
            position,
            stars,
        } => push_subarray(out, code, links, position, stars),
        Instr::Aside {
            purpose,
            kind,
            head,
        } => push_aside(out, code, purpose, kind, head),
        Instr::UseFormal {
            mode,
            links,
            position,
        } => push_use(out, "UseFormal", mode, links, position),
        Instr::Call { links, site, head } => push_call(out, links, site, head),
        Instr::Return => out.push_str("Return"),
        Instr::End => out.push_str("End"),
        Instr::AssignBack { kind, formal } => push_assign_back(out, code, kind, formal),
        Instr::Compare { call } => push_compare(out, code, call),
        Instr::Prepare { call, formal } => push_prepare(out, code, call, formal),
        Instr::CallThrough { site, call } => push_call_through(out, code, site, call),
        Instr::PlaceBack { formal, head } => push_place_back(out, formal, head),
        Instr::Stop => out.push_str("Stop"),
        Instr::Stuck => out.push_str("Stuck"),
    }
}

/// Writes a number behind a front.
fn push_number(out: &mut String, front: &str, number: u32) -> Result<(), AllocError> {
    out.push_str(front)?;
    write!(out, "{number}")
}

/// Writes what works on operands, by its name.
fn push_operator<T: Debug>(out: &mut String, front: &str, operator: &T) -> Result<(), AllocError> {
    out.push_str(front)?;
    write!(out, "{operator:?}")
}

/// Writes the taking of a part of a string.
fn push_part(out: &mut String, whole: u16, count: u16) -> Result<(), AllocError> {
    write!(out, "Part {count} of {whole}")
}

/// Writes a jump out of the text that runs, or within it.
fn push_goto(out: &mut String, links: u16, position: u32, target: u32) -> Result<(), AllocError> {
    write!(out, "Goto {links}.{position} @{target}")
}

/// Writes what begins the next turn of FOR.
fn push_next_turn(out: &mut String, target: u32, position: u32) -> Result<(), AllocError> {
    write!(out, "NextTurn @{target} 0.{position}")
}

/// Writes the place to which a formal is assigned back.
fn push_place_back(out: &mut String, formal: u32, head: u32) -> Result<(), AllocError> {
    write!(out, "PlaceBack {formal} @{head}")
}

/// What a variable is wanted for.
fn mode_word(mode: Mode) -> &'static str {
    match mode {
        Mode::Value => "value",
        Mode::Place => "place",
        Mode::AsAsked => "asked",
    }
}

/// Writes the use of an entry.
fn push_use(
    out: &mut String,
    word: &str,
    mode: Mode,
    links: u16,
    position: u32,
) -> Result<(), AllocError> {
    let wanted = mode_word(mode);
    write!(out, "{word} {wanted} {links}.{position}")
}

/// Writes the use of a standard variable.
fn push_standard(out: &mut String, mode: Mode, width: Width) -> Result<(), AllocError> {
    let wanted = mode_word(mode);
    write!(out, "Standard {wanted} {width:?}")
}

/// Writes where the widths stand that a WRITE has set, if it has set any.
fn push_widths(out: &mut String, position: Option<u32>) -> Result<(), AllocError> {
    match position {
        Some(position) => push_number(out, " 0.", position),
        None => Ok(()),
    }
}

/// Writes the placing of a value.
fn push_write(out: &mut String, word: &str, position: Option<u32>) -> Result<(), AllocError> {
    out.push_str(word)?;
    push_widths(out, position)
}

/// Writes the use of an element.
fn push_element(
    out: &mut String,
    mode: Mode,
    links: u16,
    position: u32,
    count: u32,
) -> Result<(), AllocError> {
    push_use(out, "Element", mode, links, position)?;
    write!(out, " of {count}")
}

/// Writes the use of a field.
fn push_field(
    out: &mut String,
    code: &Code,
    mode: Mode,
    class: ClassId,
    position: u32,
) -> Result<(), AllocError>
    requires { class.0 < length code.now.given.classes.classes }
{
    let wanted = mode_word(mode);
    write!(out, "Field {wanted} {position}")?;
    push_class(out, code, " of ", class)
}

/// Writes the making of a record.
fn push_record(
    out: &mut String,
    code: &Code,
    word: &str,
    class: ClassId,
    count: u32,
) -> Result<(), AllocError>
    requires { class.0 < length code.now.given.classes.classes }
{
    write!(out, "{word} {count}")?;
    push_class(out, code, " of ", class)
}

/// Writes a turn of FOR with a value.
fn push_list_turn(out: &mut String, code: &Code, target: u32, name: u32) -> Result<(), AllocError>
    requires { name < length code.now.given.names }
{
    write!(out, "ListTurn @{target}")?;
    push_name(out, code, " ", name)
}

/// Writes the declaration of an array.
fn push_array_declared(
    out: &mut String,
    code: &Code,
    kind: SimpleType,
    name: u32,
) -> Result<(), AllocError>
    requires whole { GivenFits code.now.given }
    requires runs { KindRuns code.now.given kind }
    requires there { name < length code.now.given.names }
{
    push_type(out, code, "DeclareArray ", kind)?;
    push_name(out, code, " ", name)
}
