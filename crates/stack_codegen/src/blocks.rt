ghost use Rattle.std.specs.Prelude.{◌≡◌, ◌<◌, ◌≤◌, [], ◌∷◌, IfOk, OnOk, length};
ghost use Rattle.algolw_typing.specs.Typed as typed;
ghost use Rattle.algolw_typing.specs.Known.{KnowsDeclared};
ghost use Rattle.algolw_typing.specs.ProgramView.{targets_view};
ghost use Rattle.algolw_tree.specs.declared.programs.TypedDecl.{Proc};
ghost use Rattle.program_meaning.specs.Translating.{names_at};
ghost use Rattle.phrase_code.specs.Coding.{declare_arrays_code, declare_code};
ghost use Rattle.stack_code.specs.CodeView.{KindFits, KindsFit, kind_view};
ghost use Rattle.stack_code.specs.declared.instructions.Mode.TheVariants as held_mode;
ghost use Rattle.symbol_table.specs.Blocks.{all_formals, formals_in};
ghost use Rattle.symbol_table.specs.Symbols.{formals_of};
ghost use Rattle.symbol_table.specs.Contexts.{numbers_in, phrase_context};
ghost use Rattle.symbol_table.specs.declared.here.Here.{Here};
ghost use Rattle.symbol_table.specs.Parts.{decls_in, items_in};
ghost use Rattle.code_emitter.specs.Parts.{Codes, EmitterFits, none_own, place_in, scene};
ghost use Rattle.stack_codegen.specs.Blocks as blocks;
ghost use Rattle.stack_codegen.specs.Codable.{CodesNode, IsCodable, IsCodableBounds, IsCodableDecls, IsCodableItems, item_in, with_kind};

use crate::phrases::{emit_before, emit_phrase};
use algolw_tree::{Node, Targets, TypedBound, TypedDecl, TypedItem, TypedProc};
use code_emitter::Emitter;
use stack_code::{Instr, Mode, ProcedureHead};
use std::alloc::AllocError;
use symbol_table::{
    Here, Procedure, Standing, entries_of, entry_count, further, number, procedure_count,
    procedures_of,
};
use value_ops::SimpleType;

/// A procedure whose end isn't coded yet.
#[derive(Clone, Copy)]
struct OpenProcedure {
    /// The instruction that it begins with.
    begin: u32,
    /// The number of its head.
    head: u32,
}

/// Variables.
fn variables(emitter: &mut Emitter, here: Here, names: &Targets) -> Result<(), AllocError>
    requires fits { EmitterFits emitter.old }
    requires known { KnowsDeclared (numbers_in (scene emitter.old)).names (targets_view (numbers_in (scene emitter.old)) names.now.items) }
    ensures { OnOk result (Codes none_own emitter.old emitter.new
        (λ ts. declare_code (place_in (scene emitter.old) here)
        (names_at (phrase_context (scene emitter.old)) (targets_view (numbers_in (scene emitter.old)) names.now.items))) 0 0) }
{
    for name in names {
        emitter.append(here, Instr::Declare { name: name.0 })?;
    }
    Ok(())
}

/// Arrays, behind their bounds.
fn arrays(
    emitter: &mut Emitter,
    here: Here,
    kind: SimpleType,
    names: &Targets,
) -> Result<(), AllocError>
    requires fits { EmitterFits emitter.old }
    requires kind { KindFits emitter.old.code.given kind }
    requires known { KnowsDeclared (numbers_in (scene emitter.old)).names (targets_view (numbers_in (scene emitter.old)) names.now.items) }
    ensures { OnOk result (Codes none_own emitter.old emitter.new
        (λ ts. declare_arrays_code (place_in (scene emitter.old) here) (kind_view emitter.old.code.given kind)
        (names_at (phrase_context (scene emitter.old)) (targets_view (numbers_in (scene emitter.old)) names.now.items))) 0 0) }
{
    for name in names {
        emitter.append(here, Instr::DeclareArray { kind, name: name.0 })?;
    }
    Ok(())
}

/// A block.
#[cycle(phrases)]
pub fn emit_block(
    emitter: &mut Emitter,
    here: Here,
    node: &Node,
    decls: &[TypedDecl],
    items: &[TypedItem],
) -> Result<u32, AllocError>
    requires { IsCodable emitter.old (with_kind node.now (λ s. typed.Block (decls_in (numbers_in s) decls.now) (items_in (numbers_in s) items.now))) }
    ensures { IfOk result (λ m. CodesNode emitter.old emitter.new here held_mode.Value (with_kind node.now (λ s. typed.Block (decls_in (numbers_in s) decls.now) (items_in (numbers_in s) items.now))) m) }
{
    emitter.begin(here, node.statement)?;
    let here = here.in_statement(node.statement);
    emitter.append(here, Instr::EnterBlock(node.place))?;
    let outside = here.with_entries(1)?;
    let entries = further(entry_count(decls)?, 1)?;
    let inside = outside.with_entries(entries)?;
    let mark = emitter.symbols.mark();
    let procedures = procedure_count(decls)?;
    let count = further(procedures, number(items.len())?)?;
    let targets = emitter.add_targets(count)?;
    emitter
        .symbols
        .declare_block(outside, targets, decls, items)?;
    let most = emit_scope(emitter, outside, inside, targets, decls, items)?;
    let marks = further(most, 2)?;
    let position = here.entries;
    emitter.append(here, Instr::LeaveBlock { position })?;
    emitter.symbols.take_back(mark);
    Ok(marks)
}

/// What stands in a block, where its names are known: its declarations, and its items, which have the targets behind
/// those of procedures.
#[cycle(phrases)]
fn emit_scope(
    emitter: &mut Emitter,
    outside: Here,
    inside: Here,
    targets: u32,
    decls: &[TypedDecl],
    items: &[TypedItem],
) -> Result<u32, AllocError>
    requires decls { IsCodableDecls emitter.old decls.now }
    requires items { IsCodableItems emitter.old items.now }
    requires declared { blocks.AreDeclared emitter.old.symbols decls.now }
    requires reserved { blocks.AreReserved emitter.old (blocks.scope_own targets decls.now items.now) }
    requires places { inside.statement ≡ outside.statement }
    requires levels { inside.level ≡ outside.level }
    ensures { IfOk result (λ m. blocks.CodesScope emitter.old emitter.new outside inside targets decls.now items.now m) }
{
    let first = emit_decls(emitter, outside, inside, targets, decls)?;
    emitter.append(inside, Instr::Declared)?;
    let procedures = procedure_count(decls)?;
    let behind = further(targets, procedures)?;
    let rest = emit_items(emitter, inside, behind, items)?;
    Ok(first.max(rest))
}

/// The declarations of a block: their bounds outside it, and their bodies inside. Procedures have targets from this one
/// on.
#[cycle(phrases)]
fn emit_decls(
    emitter: &mut Emitter,
    outside: Here,
    inside: Here,
    targets: u32,
    decls: &[TypedDecl],
) -> Result<u32, AllocError>
    requires ready { IsCodableDecls emitter.old decls.now }
    requires declared { blocks.AreDeclared emitter.old.symbols decls.now }
    requires reserved { blocks.AreReserved emitter.old (blocks.decls_own targets decls.now) }
    requires places { inside.statement ≡ outside.statement }
    requires levels { inside.level ≡ outside.level }
    ensures { IfOk result (λ m. blocks.CodesDecls emitter.old emitter.new outside inside targets decls.now m) }
{
    let mut there = outside;
    let mut target = targets;
    let mut marks = 0;
    for decl in decls {
        let found = emit_decl(emitter, there, inside, target, decl)?;
        marks = marks.max(found);
        let entries = number(entries_of(decl))?;
        there = there.with_entries(entries)?;
        target = further(target, procedures_of(decl))?;
    }
    Ok(marks)
}

/// A declaration.
#[cycle(phrases)]
fn emit_decl(
    emitter: &mut Emitter,
    outside: Here,
    inside: Here,
    target: u32,
    decl: &TypedDecl,
) -> Result<u32, AllocError>
    requires ready { IsCodableDecls emitter.old (decl.now ∷ []) }
    requires declared { blocks.DeclIsDeclared emitter.old.symbols decl.now }
    requires reserved { blocks.AreReserved emitter.old (blocks.decls_own target (decl.now ∷ [])) }
    requires places { inside.statement ≡ outside.statement }
    requires levels { inside.level ≡ outside.level }
    ensures { IfOk result (λ m. blocks.CodesDecls emitter.old emitter.new outside inside target (decl.now ∷ []) m) }
{
    match decl {
        TypedDecl::Simple(_, names) => {
            variables(emitter, outside, names)?;
            Ok(0)
        }
        TypedDecl::Array(kind, names, bounds) => {
            let marks = emit_bounds(emitter, outside, bounds)?;
            arrays(emitter, outside, *kind, names)?;
            Ok(marks)
        }
        TypedDecl::Proc(procedure) => emit_procedure(emitter, inside, target, procedure),
        TypedDecl::Class(_) => Ok(0),
    }
}

/// Bounds of arrays.
#[cycle(phrases)]
fn emit_bounds(emitter: &mut Emitter, here: Here, bounds: &[TypedBound]) -> Result<u32, AllocError>
    requires { IsCodableBounds emitter.old bounds.now }
    ensures { IfOk result (λ m. blocks.CodesBounds emitter.old emitter.new here bounds.now m) }
{
    let mut marks = 0;
    for bound in bounds {
        let lower = emit_before(emitter, here, Some(&bound.lower), Instr::Push)?;
        let upper = emit_before(emitter, here, Some(&bound.upper), Instr::Push)?;
        marks = marks.max(lower.max(upper));
    }
    emitter.append(here, Instr::Bounds(number(bounds.len())?))?;
    Ok(marks)
}

/// A procedure, whose head is at a target.
#[cycle(phrases)]
fn emit_procedure(
    emitter: &mut Emitter,
    here: Here,
    target: u32,
    procedure: &TypedProc,
) -> Result<u32, AllocError>
    requires ready { IsCodableDecls emitter.old (Proc procedure.now ∷ []) }
    requires declared { blocks.IsDeclared emitter.old.symbols procedure.now }
    requires reserved { blocks.AreReserved emitter.old (blocks.decls_own target (Proc procedure.now ∷ [])) }
    ensures { IfOk result (λ m. (outside : Here) → outside.statement ≡ here.statement →
        blocks.CodesDecls emitter.old emitter.new outside here target (Proc procedure.now ∷ []) m) }
{
    let declared = declared_as(emitter, procedure);
    let opened = open_procedure(emitter, here, target, declared, procedure)?;
    let marks = emit_body(emitter, here, declared, procedure)?;
    close_procedure(emitter, here, procedure.result, opened)?;
    Ok(marks)
}

/// What a procedure's name stands for.
fn declared_as(emitter: &Emitter, procedure: &TypedProc) -> Procedure
    requires { blocks.IsDeclared emitter.now.symbols procedure.now }
    ensures formals { formals_of emitter.now.symbols result ≡ all_formals (formals_in procedure.now) }
    ensures counted { result.count ≡ length (all_formals (formals_in procedure.now)) }
{
    match emitter.symbols.standing(procedure.name.0) {
        Standing::Procedure(declared) => declared,
        _ => unreachable!(),
    }
}

/// The begin of a procedure, with a head that tells its formals, at a target.
fn open_procedure(
    emitter: &mut Emitter,
    here: Here,
    target: u32,
    declared: Procedure,
    procedure: &TypedProc,
) -> Result<OpenProcedure, AllocError>
    requires ready { IsCodableDecls emitter.old (Proc procedure.now ∷ []) }
    requires formals { formals_of emitter.old.symbols declared ≡ all_formals (formals_in procedure.now) }
    requires reserved { target < length emitter.old.targets.items }
    ensures { IfOk result (λ opened. blocks.OpensProcedure emitter.old emitter.new here target procedure.now opened) }
{
    let formals = emitter.symbols.formals(emitter.alloc, declared)?;
    let head = emitter.code.add_procedure(ProcedureHead {
        name: procedure.name.0,
        result: procedure.result,
        formals,
    })?;
    let begin = emitter.place(target)?;
    emitter.append(here, Instr::Procedure { head, behind: 0 })?;
    Ok(OpenProcedure { begin, head })
}

/// The body of a procedure, in which its formals are known.
#[cycle(phrases)]
fn emit_body(
    emitter: &mut Emitter,
    here: Here,
    declared: Procedure,
    procedure: &TypedProc,
) -> Result<u32, AllocError>
    requires ready { IsCodableDecls emitter.old (Proc procedure.now ∷ []) }
    requires formals { formals_of emitter.old.symbols declared ≡ all_formals (formals_in procedure.now) }
    requires counted { declared.count ≡ length (all_formals (formals_in procedure.now)) }
    ensures { IfOk result (λ m. blocks.CodesBody emitter.old emitter.new here procedure.now m) }
{
    let inside = here.inner_text(declared.count)?;
    let mark = emitter.symbols.mark();
    emitter.symbols.declare_formals(inside.level, declared)?;
    let marks = emit_phrase(emitter, inside, Mode::Value, &procedure.body)?;
    emitter.symbols.take_back(mark);
    Ok(marks)
}

/// The end of a procedure, which gives what is held where it has a type.
fn close_procedure(
    emitter: &mut Emitter,
    here: Here,
    kind: Option<SimpleType>,
    opened: OpenProcedure,
) -> Result<(), AllocError>
    requires kind { KindsFit emitter.old.code.given kind }
    requires begin { opened.begin < length emitter.old.code.instructions }
    requires head { opened.head < length emitter.old.code.added.procedures }
    ensures { OnOk result (emitter.new ≡ blocks.closed_procedure emitter.old here kind opened) }
{
    give_back(emitter, here, kind)?;
    emitter.append(here, Instr::Return)?;
    let behind = emitter.next()?;
    let head = opened.head;
    emitter
        .code
        .replace(opened.begin, Instr::Procedure { head, behind });
    Ok(())
}

/// What is held is given, where there is a type.
fn give_back(emitter: &mut Emitter, here: Here, kind: Option<SimpleType>) -> Result<(), AllocError>
    requires { KindsFit emitter.old.code.given kind }
    ensures { OnOk result (emitter.new ≡ blocks.given_back emitter.old here kind) }
{
    if let Some(kind) = kind {
        emitter.append(here, Instr::Make(kind))?;
        emitter.append(here, Instr::Reserve)?;
    }
    Ok(())
}

/// The items of a block, of which the last one tells what is given. They have targets from this one on.
#[cycle(phrases)]
fn emit_items(
    emitter: &mut Emitter,
    here: Here,
    targets: u32,
    items: &[TypedItem],
) -> Result<u32, AllocError>
    requires ready { IsCodableItems emitter.old items.now }
    requires reserved { blocks.AreReserved emitter.old (blocks.items_own targets items.now) }
    ensures { IfOk result (λ m. blocks.CodesItems emitter.old emitter.new here targets items.now m) }
{
    if items.is_empty() {
        return emitter.alone(here, Instr::Nothing);
    }
    let mut marks = 0;
    let mut target = targets;
    for item in items {
        emitter.place(target)?;
        target = further(target, 1)?;
        let inside = emit_item(emitter, here, item)?;
        marks = marks.max(inside);
    }
    Ok(marks)
}

/// What stands behind the labels of an item.
#[cycle(phrases)]
fn emit_item(emitter: &mut Emitter, here: Here, item: &TypedItem) -> Result<u32, AllocError>
    requires { IsCodable emitter.old (item_in item.now) }
    ensures { IfOk result (λ m. CodesNode emitter.old emitter.new here held_mode.Value (item_in item.now) m) }
{
    match item {
        TypedItem::Empty(_) => emitter.alone(here, Instr::Nothing),
        TypedItem::Plain(phrase) => emit_phrase(emitter, here, Mode::Value, phrase),
        TypedItem::Labelled(labelled) => emit_phrase(emitter, here, Mode::Value, &labelled.phrase),
    }
}
