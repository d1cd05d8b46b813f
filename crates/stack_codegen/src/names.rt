ghost use Rattle.std.specs.Prelude.{◌≡◌, IfOk, OnOk, Some, true};
ghost use Rattle.program_meaning.specs.Translating as translating;
ghost use Rattle.stack_code.specs.CodeView.{InstrFits};
ghost use Rattle.stack_code.specs.declared.instructions.Mode.{Mode};
ghost use Rattle.symbol_table.specs.Standings.{standing_of};
ghost use Rattle.stack_codegen.specs.Codable.{CodesNode, IsCodable, IsCodableLists};
ghost use Rattle.stack_codegen.specs.Listed as listed;
ghost use Rattle.stack_codegen.specs.Names as names;

use crate::calls::{emit_call, emit_call_through};
use crate::lists::{
    ListPlan, ListUse, emit_parts_of_given, emit_with_list, first_list, phrase_count,
};
use crate::phrases::emit_before;
use crate::writes::emit_write;
use algolw_tree::{Node, Standard, TypedActual, TypedList, TypedListKind};
use code_emitter::Emitter;
use stack_code::{Constant, Instr, Mode};
use std::alloc::AllocError;
use symbol_table::{Here, Standing};
use value_ops::SimpleType;

/// How long a string of a type is.
fn length_of(kind: SimpleType) -> u16
    ensures { result ≡ names.length_of kind }
{
    match kind {
        SimpleType::Str(length) => length,
        _ => 0,
    }
}

/// How long a string is that is given.
fn length_given(kind: Option<SimpleType>) -> u16
    ensures { result ≡ names.length_given kind }
{
    match kind {
        Some(kind) => length_of(kind),
        None => 0,
    }
}

/// What is done with the list of phrases that are read.
fn transfer(list: ListUse) -> ListPlan
    ensures { result ≡ names.transfer list }
{
    ListPlan {
        begins: true,
        list: Some(list),
        does: Instr::Nothing,
        whole: None,
    }
}

/// What is done with a list behind what every deck has.
fn standard_plan(standard: Standard) -> Option<ListPlan>
    ensures { result ≡ names.standard_plan standard }
{
    match standard {
        Standard::Function(op) => Some(ListPlan {
            begins: false,
            list: None,
            does: Instr::Unary(op),
            whole: Some(1),
        }),
        Standard::Read { next } => Some(transfer(ListUse::Read { next })),
        Standard::ReadCard => Some(transfer(ListUse::ReadCard)),
        Standard::IoControl => Some(ListPlan {
            begins: true,
            list: None,
            does: Instr::IoControl,
            whole: None,
        }),
        Standard::Write { first: _ } | Standard::MaxInteger | Standard::Variable(_) => None,
    }
}

/// What is done with a list of so many phrases behind a name, where that is no call.
fn list_plan(here: Here, mode: Mode, standing: Standing, count: u32) -> Option<ListPlan>
    ensures { result ≡ names.list_plan here mode standing count }
{
    match standing {
        Standing::Array(kind, entry) => Some(ListPlan {
            begins: false,
            list: Some(ListUse::Subscripts),
            does: Instr::Element {
                mode,
                links: here.links(entry.level),
                position: entry.position,
                count,
            },
            whole: Some(length_of(kind)),
        }),
        Standing::Class(class) => Some(ListPlan {
            begins: false,
            list: Some(ListUse::Fields(class)),
            does: Instr::MakeRecord {
                class: class.class,
                count,
            },
            whole: None,
        }),
        Standing::Field(class, position, kind) => Some(ListPlan {
            begins: false,
            list: None,
            does: Instr::Field {
                mode,
                class,
                position,
            },
            whole: Some(length_of(kind)),
        }),
        Standing::Standard(standard) => standard_plan(standard),
        _ => None,
    }
}

/// A name behind which no list is that it takes.
fn alone_instr(mode: Mode, standing: Standing) -> Option<Instr>
    ensures { result ≡ names.alone_instr mode standing }
{
    match standing {
        Standing::Class(class) => Some(Instr::MakeRecordAlone {
            class: class.class,
            count: class.count,
        }),
        Standing::Standard(Standard::MaxInteger) => {
            Some(Instr::Constant(Constant::Integer(2147483647)))
        }
        Standing::Standard(Standard::Variable(width)) => Some(Instr::Standard { mode, width }),
        _ => None,
    }
}

/// A name with no list behind it that it takes.
fn emit_name_alone(
    emitter: &mut Emitter,
    here: Here,
    mode: Mode,
    standing: Standing,
) -> Result<u32, AllocError>
    requires { names.AloneFits emitter.old (names.alone_instr mode standing) }
    ensures none { IfOk result (λ m. m ≡ 0) }
    ensures made { OnOk result (emitter.new ≡ names.with_alone emitter.old here mode standing (names.alone_instr mode standing)) }
{
    match alone_instr(mode, standing) {
        Some(does) => emitter.alone(here, does),
        None => emitter.name(here, mode, standing),
    }
}

/// How long a part of a string is.
fn part_length(length: &i32) -> Result<u16, AllocError>
    ensures { IfOk result (λ n. translating.written length.now ≡ n) }
{
    match u16::try_from(*length) {
        Ok(count) => Ok(count),
        Err(_) => Err(AllocError),
    }
}

/// A name with the lists behind it.
#[cycle(phrases)]
pub fn emit_named(
    emitter: &mut Emitter,
    here: Here,
    mode: Mode,
    node: &Node,
    name: u32,
    lists: &[TypedList],
) -> Result<u32, AllocError>
    requires { IsCodable emitter.old (names.named_node node.now name lists.now) }
    ensures { IfOk result (λ m. CodesNode emitter.old emitter.new here mode (names.named_node node.now name lists.now) m) }
{
    let standing = emitter.symbols.standing(name);
    match standing {
        Standing::Variable(kind, _) | Standing::NameFormal(kind, _) => {
            let marks = emitter.name(here, mode, standing)?;
            emit_parts(emitter, here, marks, length_of(kind), lists)
        }
        Standing::Procedure(_) | Standing::ProcedureFormal(_, _) => {
            emit_called(emitter, here, node, name, lists)
        }
        Standing::Standard(standard) => {
            emit_standard(emitter, here, mode, node, name, standard, lists)
        }
        _ => emit_applied(emitter, here, mode, node, name, lists),
    }
}

/// A standard name with the lists behind it.
#[cycle(phrases)]
fn emit_standard(
    emitter: &mut Emitter,
    here: Here,
    mode: Mode,
    node: &Node,
    name: u32,
    standard: Standard,
    lists: &[TypedList],
) -> Result<u32, AllocError>
    requires codable { IsCodable emitter.old (names.named_node node.now name lists.now) }
    requires stands { names.IsStandard emitter.old name standard }
    ensures { IfOk result (λ m. CodesNode emitter.old emitter.new here mode (names.named_node node.now name lists.now) m) }
{
    match standard {
        Standard::Write { first } => emit_write(emitter, here, mode, node, name, first, lists),
        _ => emit_applied(emitter, here, mode, node, name, lists),
    }
}

/// What is neither a variable, nor called, nor WRITE, with the lists behind it.
#[cycle(phrases)]
fn emit_applied(
    emitter: &mut Emitter,
    here: Here,
    mode: Mode,
    node: &Node,
    name: u32,
    lists: &[TypedList],
) -> Result<u32, AllocError>
    requires codable { IsCodable emitter.old (names.named_node node.now name lists.now) }
    requires applied { names.is_applied (standing_of emitter.old.symbols.names name) ≡ true }
    ensures { IfOk result (λ m. CodesNode emitter.old emitter.new here mode (names.named_node node.now name lists.now) m) }
{
    let standing = emitter.symbols.standing(name);
    match first_list(lists) {
        Some((actuals, rest)) => {
            let count = phrase_count(actuals)?;
            match list_plan(here, mode, standing, count) {
                Some(plan) => {
                    let inner = plan.place(here, node.statement);
                    let marks = emit_with_list(emitter, inner, plan, actuals)?;
                    emit_parts_of_given(emitter, here, marks, plan.whole, rest)
                }
                None => emit_name_alone(emitter, here, mode, standing),
            }
        }
        None => emit_name_alone(emitter, here, mode, standing),
    }
}

/// The parts of a string of so many characters, behind its code, which may have so many marks in each other.
#[cycle(phrases)]
pub fn emit_parts(
    emitter: &mut Emitter,
    here: Here,
    marks: u32,
    whole: u16,
    lists: &[TypedList],
) -> Result<u32, AllocError>
    requires { IsCodableLists emitter.old lists.now (listed.PartsSuit (Some whole)) }
    ensures { IfOk result (λ m. listed.ContinuesParts emitter.old emitter.new here (Some whole) lists.now marks m) }
{
    let mut marks = marks;
    let mut whole = whole;
    for list in lists {
        let TypedListKind::Part(start, length) = &list.kind else {
            return Ok(marks);
        };
        let count = part_length(length)?;
        emitter.append(here, Instr::Push)?;
        let inside = emit_before(emitter, here, Some(start), Instr::Part { whole, count })?;
        marks = marks.max(inside);
        whole = count;
    }
    Ok(marks)
}

/// The actuals of a call, and the lists behind them.
fn called_lists(lists: &[TypedList]) -> (&[TypedActual], &[TypedList])
    ensures { listed.AreCalled lists.now result.0.now result.1.now }
{
    match first_list(lists) {
        Some(parts) => parts,
        None => (&[], lists),
    }
}

/// What is called, with the lists behind it.
#[cycle(phrases)]
fn emit_called(
    emitter: &mut Emitter,
    here: Here,
    node: &Node,
    name: u32,
    lists: &[TypedList],
) -> Result<u32, AllocError>
    requires codable { IsCodable emitter.old (names.named_node node.now name lists.now) }
    requires called { names.is_called (standing_of emitter.old.symbols.names name) ≡ true }
    ensures { IfOk result (λ m. (u : Mode) → CodesNode emitter.old emitter.new here u (names.named_node node.now name lists.now) m) }
{
    let (actuals, rest) = called_lists(lists);
    emitter.begin(here, node.statement)?;
    let inner = here.in_statement(node.statement);
    match emitter.symbols.standing(name) {
        Standing::Procedure(procedure) => {
            let marks = emit_call(emitter, inner, node.place, name, procedure, actuals)?;
            emit_parts(emitter, here, marks, length_given(procedure.result), rest)
        }
        Standing::ProcedureFormal(result, entry) => {
            let marks = emit_call_through(emitter, inner, node.place, name, entry, actuals)?;
            emit_parts(emitter, here, marks, length_given(result), rest)
        }
        _ => emitter.alone(inner, Instr::Stuck),
    }
}
