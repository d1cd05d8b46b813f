ghost use Rattle.std.specs.Prelude.{◌≡◌, ℕ, IfOk, OnOk, None, Some, length, max, true};
ghost use Rattle.algolw_typing.specs.Typed as typed;
ghost use Rattle.program_meaning.specs.Translating as translating;
ghost use Rattle.stack_code.specs.CodeView.{InstrFits};
ghost use Rattle.program_meaning.specs.Phrases.{Binary};
ghost use Rattle.stack_code.specs.declared.instructions.Constant.TheVariants as held_constant;
ghost use Rattle.stack_code.specs.declared.instructions.Instr.TheVariants as held;
ghost use Rattle.stack_code.specs.declared.instructions.Mode.TheVariants as held_mode;
ghost use Rattle.symbol_table.specs.Symbols.{class_at};
ghost use Rattle.symbol_table.specs.Contexts.{numbers_in};
ghost use Rattle.symbol_table.specs.Heres.{in_statement};
ghost use Rattle.symbol_table.specs.Parts.{links_in, perhaps_in};
ghost use Rattle.symbol_table.specs.Standings.{standing_of};
ghost use Rattle.code_emitter.specs.Appending.{with_goto};
ghost use Rattle.code_emitter.specs.Parts.{CodesPhrase, is_plain, phrase_in, scene};
ghost use Rattle.stack_codegen.specs.Codable.{CodesNode, IsCodable, IsCodablePerhaps, node_in, with_kind};
ghost use Rattle.stack_codegen.specs.Operations as operations;

use crate::blocks::emit_block;
use crate::loops::{Choices, emit_case, emit_for_list, emit_for_step, emit_while_do};
use crate::names::emit_named;
use algolw_tree::{Gives, Node, NodeKind, Op, TypedLink, UnaryOp};
use code_emitter::{Emitter, deciding, type_given, variable_type};
use stack_code::{Constant, Instr, Mode};
use std::alloc::AllocError;
use symbol_table::{Here, further};
use value_ops::SimpleType;

/// Whether it is a LOGICAL.
fn is_logical(gives: Option<Gives>) -> bool
    ensures { result ≡ operations.is_logical gives }
{
    matches!(gives, Some(Gives::Simple(SimpleType::Logical)))
}

/// What `~` does.
fn negation(gives: Option<Gives>) -> UnaryOp
    ensures { result ≡ operations.negation gives }
{
    if is_logical(gives) {
        UnaryOp::Not
    } else {
        UnaryOp::Complement
    }
}

/// A phrase that may be missing, and what stands for it then.
#[derive(Clone, Copy)]
pub(crate) struct Branch<'p> {
    /// The phrase.
    pub phrase: Option<&'p Node>,
    /// The instruction where there is none.
    pub missing: Instr,
}

/// A phrase that is written.
fn written(phrase: &Node) -> Branch<'_>
    ensures { result ≡ record { phrase = Some phrase.entry; missing = held.Nothing } }
{
    Branch {
        phrase: Some(phrase),
        missing: Instr::Nothing,
    }
}

/// A truth value where none is written.
fn constant<'p>(value: bool) -> Branch<'p>
    ensures phrase { result.phrase ≡ None }
    ensures missing { result.missing ≡ held.Constant (held_constant.Logical value) }
{
    Branch {
        phrase: None,
        missing: truth(value),
    }
}

/// A truth value.
fn truth(value: bool) -> Instr
    ensures { result ≡ held.Constant (held_constant.Logical value) }
{
    Instr::Constant(Constant::Logical(value))
}

/// A number that is written.
fn number(n: &i32) -> Instr
    ensures { result ≡ held.Constant (held_constant.Integer n.now) }
{
    Instr::Constant(Constant::Integer(*n))
}

/// A phrase, of which what is wanted is told; how many marks it may have in each other.
#[cycle(phrases)]
pub fn emit_phrase(
    emitter: &mut Emitter,
    here: Here,
    mode: Mode,
    node: &Node,
) -> Result<u32, AllocError>
    requires { IsCodable emitter.old (node_in node.now) }
    ensures { IfOk result (λ m. CodesNode emitter.old emitter.new here mode (node_in node.now) m) }
{
    match &node.kind {
        NodeKind::Empty => emitter.alone(here, Instr::Nothing),
        NodeKind::Null => emitter.alone(here, Instr::Constant(Constant::Null)),
        NodeKind::Number(n) => emitter.alone(here, number(n)),
        NodeKind::Truth(value) => emitter.alone(here, truth(*value)),
        NodeKind::BitsLit(bits) => emitter.alone(here, Instr::Constant(Constant::Bits(*bits))),
        NodeKind::Quoted(text) => emitter.quoted(here, **text),
        NodeKind::Goto(name) => emit_goto(emitter, here.in_statement(node.statement), *name),
        NodeKind::Named(name, lists) => emit_named(emitter, here, mode, node, *name, lists),
        NodeKind::Negated(a) => emit_before(
            emitter,
            here,
            Some(a),
            Instr::Unary(negation(node.gives)),
        ),
        NodeKind::Abs(a) => emit_before(emitter, here, Some(a), Instr::Unary(UnaryOp::Absolute)),
        NodeKind::Signed(true, a) => emit_before(
            emitter,
            here,
            Some(a),
            Instr::Unary(UnaryOp::Minus),
        ),
        NodeKind::Signed(false, a) => emit_phrase(emitter, here, mode, a),
        NodeKind::Chain(first, links) => emit_chain(emitter, here, mode, node, first, links),
        NodeKind::Relation(op, a, b) => {
            emit_pair(emitter, here, Mode::Value, a, b, Instr::Relation(*op))
        }
        NodeKind::IsClass(a, class, _) => emit_is_class(emitter, here, a, *class),
        NodeKind::Assign(a, b) => emit_assign(emitter, here, node, a, b),
        NodeKind::IfThen(c, a, b) => emit_if_then(emitter, here, node, c, a, b.as_deref()),
        NodeKind::CaseValue(subject, values) => {
            emit_case(emitter, here, node, subject, Choices::Values(values))
        }
        NodeKind::CaseDo(subject, parts) => {
            emit_case(emitter, here, node, subject, Choices::Statements(parts))
        }
        NodeKind::ForStep(x, a, b, c, body) => {
            emit_for_step(emitter, here, node, *x, a, b.as_deref(), c, body)
        }
        NodeKind::ForList(x, values, body) => emit_for_list(emitter, here, node, *x, values, body),
        NodeKind::WhileDo(c, body) => emit_while_do(emitter, here, node, c, body),
        NodeKind::Assert(c) => emit_statement(emitter, here, node, Some(c), Instr::Assert),
        NodeKind::Block(decls, items) => emit_block(emitter, here, node, decls, items),
    }
}

/// What tells whether a reference is to a record of a class.
fn class_test(emitter: &Emitter, class: u32) -> Instr
    ensures { result ≡ operations.class_test (class_at emitter.now.symbols.classes class) }
{
    match emitter.symbols.class_of(class) {
        Some(class) => Instr::IsClass(class),
        None => Instr::Stuck,
    }
}

/// A jump to what a name stands for.
fn emit_goto(emitter: &mut Emitter, here: Here, name: u32) -> Result<u32, AllocError>
    ensures none { IfOk result (λ m. m ≡ 0) }
    ensures made { OnOk result (emitter.new ≡ with_goto emitter.old here (standing_of emitter.old.symbols.names name)) }
{
    let standing = emitter.symbols.standing(name);
    emitter.goto(here, standing)
}

/// Whether a reference is to a record of a class.
#[cycle(phrases)]
fn emit_is_class(emitter: &mut Emitter, here: Here, a: &Node, class: u32) -> Result<u32, AllocError>
    requires suits { IsCodable emitter.old (node_in a.now) }
    requires fits { InstrFits emitter.old.code.given emitter.old.code.added (operations.class_test (class_at emitter.old.symbols.classes class)) }
    ensures { IfOk result (λ m. operations.CodesBefore emitter.old emitter.new here
        (phrase_in (scene emitter.old) (node_in a.now (scene emitter.old)))
        (operations.class_test (class_at emitter.old.symbols.classes class)) m) }
{
    let test = class_test(emitter, class);
    emit_before(emitter, here, Some(a), test)
}

/// A phrase that may be missing.
#[cycle(phrases)]
pub fn emit_perhaps(
    emitter: &mut Emitter,
    here: Here,
    mode: Mode,
    branch: Branch<'_>,
) -> Result<u32, AllocError>
    requires { operations.IsCodableBranch emitter.old branch }
    ensures { IfOk result (λ m. CodesPhrase emitter.old emitter.new here mode (operations.branch_phrase (scene emitter.old) branch.entry) m) }
{
    match branch.phrase {
        Some(node) => emit_phrase(emitter, here, mode, node),
        None => emitter.alone(here, branch.missing),
    }
}

/// The value of a phrase, and an instruction behind it; nothing is evaluated where there is none.
#[cycle(phrases)]
pub fn emit_before(
    emitter: &mut Emitter,
    here: Here,
    a: Option<&Node>,
    does: Instr,
) -> Result<u32, AllocError>
    requires suits { IsCodablePerhaps emitter.old a }
    requires fits { InstrFits emitter.old.code.given emitter.old.code.added does }
    requires plain { is_plain does ≡ true }
    ensures { IfOk result (λ m. operations.CodesBefore emitter.old emitter.new here (operations.optional_phrase (scene emitter.old) a.entry) does m) }
{
    let missing = Instr::Nothing;
    let marks = emit_perhaps(emitter, here, Mode::Value, Branch { phrase: a, missing })?;
    emitter.append(here, does)?;
    Ok(marks)
}

/// A statement that is an instruction behind a value.
#[cycle(phrases)]
pub fn emit_statement(
    emitter: &mut Emitter,
    here: Here,
    node: &Node,
    a: Option<&Node>,
    does: Instr,
) -> Result<u32, AllocError>
    requires suits { IsCodablePerhaps emitter.old a }
    requires fits { InstrFits emitter.old.code.given emitter.old.code.added does }
    requires plain { is_plain does ≡ true }
    ensures { IfOk result (λ m. operations.CodesStatement emitter.old emitter.new (in_statement here node.now.statement)
        (operations.optional_phrase (scene emitter.old) a.entry) does m) }
{
    let here = here.in_statement(node.statement);
    emitter.append(here, Instr::Begin)?;
    emit_before(emitter, here, a, does)
}

/// Two phrases, of which the first is wanted as is told, and an instruction behind them.
#[cycle(phrases)]
pub fn emit_pair(
    emitter: &mut Emitter,
    here: Here,
    mode: Mode,
    a: &Node,
    b: &Node,
    does: Instr,
) -> Result<u32, AllocError>
    requires first { IsCodable emitter.old (node_in a.now) }
    requires second { IsCodable emitter.old (node_in b.now) }
    requires fits { InstrFits emitter.old.code.given emitter.old.code.added does }
    requires plain { is_plain does ≡ true }
    ensures { IfOk result (λ m. operations.CodesPair emitter.old emitter.new here mode
        (phrase_in (scene emitter.old) (node_in a.now (scene emitter.old))) (phrase_in (scene emitter.old) (node_in b.now (scene emitter.old))) does m) }
{
    let left = emit_phrase(emitter, here, mode, a)?;
    emitter.append(here, Instr::Push)?;
    let right = emit_before(emitter, here, Some(b), does)?;
    Ok(left.max(right))
}

/// What is wanted of the first operand: what is wanted of all, where there are no others.
fn first_wanted(mode: Mode, links: &[TypedLink]) -> Mode
    ensures { result ≡ operations.first_wanted mode (length links.now) }
{
    if links.is_empty() { mode } else { Mode::Value }
}

/// Operands with operators of one level between them.
#[cycle(phrases)]
fn emit_chain(
    emitter: &mut Emitter,
    here: Here,
    mode: Mode,
    node: &Node,
    first: &Node,
    links: &[TypedLink],
) -> Result<u32, AllocError>
    requires { IsCodable emitter.old (with_kind node.now (λ s. typed.Chain (node_in first.now s) (links_in (numbers_in s) links.now))) }
    ensures { IfOk result (λ m. CodesNode emitter.old emitter.new here mode (with_kind node.now (λ s. typed.Chain (node_in first.now s) (links_in (numbers_in s) links.now))) m) }
{
    let logical = is_logical(node.gives);
    let wanted = first_wanted(mode, links);
    let mut marks = emit_phrase(emitter, here, wanted, first)?;
    for link in links {
        let right = emit_link(emitter, here, logical, link)?;
        marks = marks.max(right);
    }
    Ok(marks)
}

/// An operator and its right operand, behind the left one.
#[cycle(phrases)]
fn emit_link(
    emitter: &mut Emitter,
    here: Here,
    logical: bool,
    link: &TypedLink,
) -> Result<u32, AllocError>
    requires { IsCodable emitter.old (node_in link.now.right) }
    ensures { IfOk result (λ m. (n : ℕ) → operations.Continues emitter.old emitter.new here held_mode.Value
        (λ a. translating.linked logical link.now.op a (phrase_in (scene emitter.old) (node_in link.now.right (scene emitter.old)))) n (max n m)) }
{
    match deciding(logical, link.op) {
        Some(false) => emit_branches(emitter, here, written(&link.right), constant(false)),
        Some(true) => emit_branches(emitter, here, constant(true), written(&link.right)),
        None => emit_operand(emitter, here, &link.right, link.op),
    }
}

/// An operator's right operand, behind the left one.
#[cycle(phrases)]
fn emit_operand(emitter: &mut Emitter, here: Here, right: &Node, op: Op) -> Result<u32, AllocError>
    requires { IsCodable emitter.old (node_in right.now) }
    ensures { IfOk result (λ m. (n : ℕ) → operations.Continues emitter.old emitter.new here held_mode.Value
        (λ a. Binary op a (phrase_in (scene emitter.old) (node_in right.now (scene emitter.old)))) n (max n m)) }
{
    emitter.append(here, Instr::Push)?;
    emit_before(emitter, here, Some(right), Instr::Binary(op))
}

/// What is done where the value in front holds, and what is done else.
#[cycle(phrases)]
fn emit_branches(
    emitter: &mut Emitter,
    here: Here,
    consequent: Branch<'_>,
    alternative: Branch<'_>,
) -> Result<u32, AllocError>
    requires first { operations.IsCodableBranch emitter.old consequent }
    requires second { operations.IsCodableBranch emitter.old alternative }
    ensures { IfOk result (λ m. (n : ℕ) → operations.Continues emitter.old emitter.new here held_mode.Value
        (λ a. operations.choice a (operations.branch_phrase (scene emitter.old) consequent.entry) (operations.branch_phrase (scene emitter.old) alternative.entry)) n (max n m)) }
{
    let unless = emitter.append(here, Instr::JumpUnless(0))?;
    let first = emit_perhaps(emitter, here, Mode::Value, consequent)?;
    let end = emitter.append(here, Instr::Jump(0))?;
    emitter
        .code
        .replace(unless, Instr::JumpUnless(further(end, 1)?));
    let second = emit_perhaps(emitter, here, Mode::Value, alternative)?;
    let behind = emitter.next()?;
    emitter.code.replace(end, Instr::Jump(behind));
    Ok(first.max(second))
}

/// An assignment.
#[cycle(phrases)]
fn emit_assign(
    emitter: &mut Emitter,
    here: Here,
    node: &Node,
    a: &Node,
    b: &Node,
) -> Result<u32, AllocError>
    requires { IsCodable emitter.old (with_kind node.now (λ s. typed.Assign (node_in a.now s) (node_in b.now s))) }
    ensures { IfOk result (λ m. CodesNode emitter.old emitter.new here held_mode.Value (with_kind node.now (λ s. typed.Assign (node_in a.now s) (node_in b.now s))) m) }
{
    emitter.begin(here, node.statement)?;
    let assign = Instr::Assign {
        kind: variable_type(a.gives),
        gives: node.statement.is_none(),
    };
    emit_pair(
        emitter,
        here.in_statement(node.statement),
        Mode::Place,
        a,
        b,
        assign,
    )
}

/// An IF.
#[cycle(phrases)]
fn emit_if_then(
    emitter: &mut Emitter,
    here: Here,
    node: &Node,
    c: &Node,
    a: &Node,
    b: Option<&Node>,
) -> Result<u32, AllocError>
    requires { IsCodable emitter.old (with_kind node.now (λ s. typed.IfThen (node_in c.now s) (node_in a.now s) (perhaps_in (numbers_in s) b))) }
    ensures { IfOk result (λ m. CodesNode emitter.old emitter.new here held_mode.Value (with_kind node.now (λ s. typed.IfThen (node_in c.now s) (node_in a.now s) (perhaps_in (numbers_in s) b.entry))) m) }
{
    emitter.begin(here, node.statement)?;
    let here = here.in_statement(node.statement);
    let condition = emit_phrase(emitter, here, Mode::Value, c)?;
    let otherwise = Branch {
        phrase: b,
        missing: Instr::Nothing,
    };
    let inside = emit_branches(emitter, here, written(a), otherwise)?;
    emitter.make(here, type_given(node.gives))?;
    Ok(condition.max(inside))
}
