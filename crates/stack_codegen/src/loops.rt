ghost use Rattle.std.specs.Prelude.{◌≡◌, ◌<◌, ◌≤◌, IfOk, OnOk, drop, length};
ghost use Rattle.std.specs.List.{All};
ghost use Rattle.algolw_typing.specs.Typed as typed;
ghost use Rattle.algolw_typing.specs.ProgramView.{numbered};
ghost use Rattle.stack_code.specs.declared.instructions.Mode.TheVariants as held_mode;
ghost use Rattle.symbol_table.specs.Contexts.{numbers_in};
ghost use Rattle.symbol_table.specs.Parts.{nodes_in, perhaps_in};
ghost use Rattle.code_emitter.specs.Forms.{part_at};
ghost use Rattle.code_emitter.specs.Parts.{CodesPhrase, next, scene};
ghost use Rattle.stack_codegen.specs.Blocks as blocks;
ghost use Rattle.stack_codegen.specs.Codable.{CodesNode, IsCodable, IsCodableChoices, IsCodableNodes, choice_count, choices_in, node_in, part_in, with_kind};

use crate::phrases::{Branch, emit_before, emit_perhaps, emit_phrase};
use algolw_tree::{Node, TypedPart};
use code_emitter::{Emitter, type_given};
use stack_code::{Constant, Instr, Mode};
use std::alloc::AllocError;
use symbol_table::{Entry, Here, further, number};

/// The phrases that a CASE chooses from.
#[derive(Clone, Copy)]
pub(crate) enum Choices<'p> {
    /// Values.
    Values(&'p [Node]),
    /// Statements, which may be missing.
    Statements(&'p [TypedPart]),
}

impl Choices<'_> {
    /// How many there are.
    fn count(self) -> usize
        ensures { result ≡ choice_count self.entry }
    {
        match self {
            Choices::Values(values) => values.len(),
            Choices::Statements(parts) => parts.len(),
        }
    }
}

/// A CASE.
#[cycle(phrases)]
pub fn emit_case(
    emitter: &mut Emitter,
    here: Here,
    node: &Node,
    subject: &Node,
    choices: Choices<'_>,
) -> Result<u32, AllocError>
    requires { IsCodable emitter.old (with_kind node.now (λ s. typed.CaseDo (node_in subject.now s) (choices_in (numbers_in s) choices))) }
    ensures { IfOk result (λ m. CodesNode emitter.old emitter.new here held_mode.Value (with_kind node.now (λ s. typed.CaseDo (node_in subject.now s) (choices_in (numbers_in s) choices.entry))) m) }
{
    emitter.begin(here, node.statement)?;
    let here = here.in_statement(node.statement);
    let choose = Instr::Choose(number(choices.count())?);
    let subject = emit_before(emitter, here, Some(subject), choose)?;
    let parts = emit_choices(emitter, here, choices)?;
    emitter.make(here, type_given(node.gives))?;
    Ok(subject.max(parts))
}

/// The jumps to the phrases of a CASE, and the phrases, each with a jump to the end.
#[cycle(phrases)]
fn emit_choices(emitter: &mut Emitter, here: Here, choices: Choices<'_>) -> Result<u32, AllocError>
    requires { IsCodableChoices emitter.old choices }
    ensures { IfOk result (λ m. blocks.CodesChoices emitter.old emitter.new here choices.entry m) }
{
    let count = choices.count();
    let mut jump = emitter.next()?;
    for _choice in 0..count {
        emitter.append(here, Instr::Jump(0))?;
    }
    let pending = emitter.pending.len();
    let mut marks = 0;
    for index in 0..count {
        let begin = emitter.next()?;
        emitter.code.replace(jump, Instr::Jump(begin));
        jump = further(jump, 1)?;
        let inside = emit_choice(emitter, here, choices, index)?;
        let end = emitter.append(here, Instr::Jump(0))?;
        emitter.pending.push(end)?;
        marks = marks.max(inside);
    }
    end_jumps(emitter, pending)?;
    Ok(marks)
}

/// One of the phrases of a CASE.
#[cycle(phrases)]
fn emit_choice(
    emitter: &mut Emitter,
    here: Here,
    choices: Choices<'_>,
    index: usize,
) -> Result<u32, AllocError>
    requires ready { IsCodableChoices emitter.old choices }
    requires there { index < choice_count choices }
    ensures { IfOk result (λ m. CodesPhrase emitter.old emitter.new here held_mode.Value (part_at index (blocks.choices_phrase (scene emitter.old) choices.entry)) m) }
{
    match choices {
        Choices::Values(values) => emit_phrase(emitter, here, Mode::Value, &values[index]),
        Choices::Statements(parts) => emit_part(emitter, here, &parts[index]),
    }
}

/// A statement that may be missing.
#[cycle(phrases)]
fn emit_part(emitter: &mut Emitter, here: Here, part: &TypedPart) -> Result<u32, AllocError>
    requires { IsCodable emitter.old (part_in part.now) }
    ensures { IfOk result (λ m. CodesNode emitter.old emitter.new here held_mode.Value (part_in part.now) m) }
{
    match part {
        TypedPart::Empty(_) => emitter.alone(here, Instr::Nothing),
        TypedPart::Phrase(phrase) => emit_phrase(emitter, here, Mode::Value, phrase),
    }
}

/// A WHILE.
#[cycle(phrases)]
pub fn emit_while_do(
    emitter: &mut Emitter,
    here: Here,
    node: &Node,
    c: &Node,
    body: &Node,
) -> Result<u32, AllocError>
    requires { IsCodable emitter.old (with_kind node.now (λ s. typed.WhileDo (node_in c.now s) (node_in body.now s))) }
    ensures { IfOk result (λ m. CodesNode emitter.old emitter.new here held_mode.Value (with_kind node.now (λ s. typed.WhileDo (node_in c.now s) (node_in body.now s))) m) }
{
    let here = here.in_statement(node.statement);
    emitter.append(here, Instr::Begin)?;
    let jump = emitter.append(here, Instr::Jump(0))?;
    let body = emit_phrase(emitter, here, Mode::Value, body)?;
    let test = emitter.next()?;
    emitter.code.replace(jump, Instr::Jump(test));
    let again = Instr::Again(further(jump, 1)?);
    let condition = emit_before(emitter, here, Some(c), again)?;
    Ok(condition.max(body))
}

/// A FOR with a start, a step and a limit.
#[cycle(phrases)]
pub fn emit_for_step(
    emitter: &mut Emitter,
    here: Here,
    node: &Node,
    x: u32,
    a: &Node,
    b: Option<&Node>,
    c: &Node,
    body: &Node,
) -> Result<u32, AllocError>
    requires { IsCodable emitter.old (with_kind node.now (λ s. typed.ForStep (numbered (numbers_in s).names x) (node_in a.now s) (perhaps_in (numbers_in s) b) (node_in c.now s) (node_in body.now s))) }
    ensures { IfOk result (λ m. CodesNode emitter.old emitter.new here held_mode.Value (with_kind node.now (λ s. typed.ForStep (numbered (numbers_in s).names x) (node_in a.now s) (perhaps_in (numbers_in s) b.entry) (node_in c.now s) (node_in body.now s))) m) }
{
    let here = here.in_statement(node.statement);
    emitter.append(here, Instr::Begin)?;
    let start = emit_before(emitter, here, Some(a), Instr::Push)?;
    let one = Branch {
        phrase: b,
        missing: Instr::Constant(Constant::Integer(1)),
    };
    let step = emit_perhaps(emitter, here, Mode::Value, one)?;
    emitter.append(here, Instr::Push)?;
    let limit = emit_before(emitter, here, Some(c), Instr::Push)?;
    let first = emitter.append(here, Instr::FirstTurn(0))?;
    let target = emitter.append(here, Instr::Turn { name: x })?;
    let body = emit_turn(emitter, here, x, body)?;
    let position = here.entries;
    let next = emitter.append(here, Instr::NextTurn { target, position })?;
    let behind = further(next, 1)?;
    emitter.code.replace(first, Instr::FirstTurn(behind));
    Ok(start.max(step.max(limit.max(body))))
}

/// A FOR with values.
#[cycle(phrases)]
pub fn emit_for_list(
    emitter: &mut Emitter,
    here: Here,
    node: &Node,
    x: u32,
    values: &[Node],
    body: &Node,
) -> Result<u32, AllocError>
    requires { IsCodable emitter.old (with_kind node.now (λ s. typed.ForList (numbered (numbers_in s).names x) (nodes_in (numbers_in s) values.now) (node_in body.now s))) }
    ensures { IfOk result (λ m. CodesNode emitter.old emitter.new here held_mode.Value (with_kind node.now (λ s. typed.ForList (numbered (numbers_in s).names x) (nodes_in (numbers_in s) values.now) (node_in body.now s))) m) }
{
    let here = here.in_statement(node.statement);
    emitter.append(here, Instr::Begin)?;
    let jump = emitter.append(here, Instr::Jump(0))?;
    let target = further(jump, 1)?;
    let marks = emit_turn(emitter, here, x, body)?;
    let position = here.entries;
    emitter.append(here, Instr::EndTurn { position })?;
    let list = emitter.next()?;
    emitter.code.replace(jump, Instr::Jump(list));
    let turns = emit_values(emitter, here, x, target, values)?;
    emitter.append(here, Instr::Nothing)?;
    Ok(turns.max(marks))
}

/// The values of a FOR, each with its turn, which goes to the body.
#[cycle(phrases)]
fn emit_values(
    emitter: &mut Emitter,
    here: Here,
    x: u32,
    target: u32,
    values: &[Node],
) -> Result<u32, AllocError>
    requires known { x < length emitter.old.code.given.names }
    requires ready { IsCodableNodes emitter.old values.now }
    ensures { IfOk result (λ m. blocks.CodesValues emitter.old emitter.new here x target values.now m) }
{
    let mut marks = 0;
    for value in values {
        let turn = Instr::ListTurn { target, name: x };
        let inside = emit_before(emitter, here, Some(value), turn)?;
        marks = marks.max(inside);
    }
    Ok(marks)
}

/// The body of a FOR, with its control name; its marks, and that of the turn.
#[cycle(phrases)]
fn emit_turn(emitter: &mut Emitter, here: Here, x: u32, body: &Node) -> Result<u32, AllocError>
    requires { blocks.IsCodableTurn emitter.old x body.now }
    ensures { IfOk result (λ m. blocks.CodesTurn emitter.old emitter.new here x body.now m) }
{
    let mark = emitter.symbols.mark();
    let entry = Entry {
        level: here.level,
        position: further(here.entries, 1)?,
    };
    emitter.symbols.declare_control(x, entry)?;
    let marks = emit_phrase(emitter, here.with_entries(2)?, Mode::Value, body)?;
    emitter.symbols.take_back(mark);
    further(marks, 1)
}

/// Lets the jumps that are pending, but for the first so many, go to the next instruction.
fn end_jumps(emitter: &mut Emitter, pending: usize) -> Result<(), AllocError>
    requires pending { pending ≤ length emitter.old.pending.items }
    requires jumps { All (λ jump. jump < next emitter.old) (drop pending emitter.old.pending.items) }
    ensures { OnOk result (blocks.EndsJumps emitter.old emitter.new pending) }
{
    let behind = emitter.next()?;
    while emitter.pending.len() > pending {
        if let Some(jump) = emitter.pending.pop() {
            emitter.code.replace(jump, Instr::Jump(behind));
        }
    }
    Ok(())
}
