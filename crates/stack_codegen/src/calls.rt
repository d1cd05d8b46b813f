ghost use Rattle.std.specs.Prelude.{◌≡◌, ◌+◌, ◌<◌, [], IfOk, OnOk, drop, false, length, true};
ghost use Rattle.phrase_code.specs.Coding as coding;
ghost use Rattle.phrase_code.specs.Marks.{actuals_marks};
ghost use Rattle.phrase_code.specs.Sizes.{place_backs_size, prepares_size};
ghost use Rattle.stack_code.specs.CodeView.{CodeFits, KindsFit, formal_type_view, kinds_view};
ghost use Rattle.symbol_table.specs.Contexts.{coding_context};
ghost use Rattle.symbol_table.specs.Heres as heres;
ghost use Rattle.symbol_table.specs.Standings.{standing_of};
ghost use Rattle.symbol_table.specs.declared.standings.Standing.TheVariants as standings;
ghost use Rattle.code_emitter.specs.Parts.{Codes, next, none_own, place_in, scene};
ghost use Rattle.stack_codegen.specs.Calls as calls;
ghost use Rattle.stack_codegen.specs.Codable.{IsCodableActual, IsCodableActuals, node_in, sizes_known};

use crate::actuals::{ActualKind, actual_kind, emit_actual, emit_text};
use crate::lists::phrase_count;
use crate::phrases::{Branch, emit_perhaps};
use algolw_tree::{Gives, Node, TypedActual};
use code_emitter::{Emitter, type_given};
use stack_code::{FormalType, Instr, Mode, Purpose, Source};
use std::alloc::AllocError;
use symbol_table::{Entry, Here, Procedure, further, number};
use value_ops::Place;

/// A call of a declared procedure, which a name stands for.
#[cycle(phrases)]
pub fn emit_call(
    emitter: &mut Emitter,
    here: Here,
    site: Place,
    name: u32,
    procedure: Procedure,
    actuals: &[TypedActual],
) -> Result<u32, AllocError>
    requires known { name < length emitter.old.code.given.names }
    requires procedure { standing_of emitter.old.symbols.names name ≡ standings.Procedure procedure }
    requires ready { calls.IsCodableCall emitter.old false name actuals.now }
    ensures { IfOk result (λ m. Codes none_own emitter.old emitter.new
        (calls.called_code (scene emitter.old) here false site (next emitter.old) (calls.name_phrase (scene emitter.old) name) (calls.actuals_given (scene emitter.old) actuals.now))
        (actuals_marks (calls.actuals_given (scene emitter.old) actuals.now)) m) }
{
    let pending = emitter.pending.len();
    let ready = emit_in_line(emitter, here, procedure, actuals)?;
    let links = here.links(procedure.level);
    let head = procedure.target;
    emitter.append(here, Instr::Call { links, site, head })?;
    let back = emit_backs(emitter, here, procedure, pending, actuals)?;
    emitter.append(here, Instr::End)?;
    emitter.pending.truncate(pending);
    Ok(ready.max(back))
}

/// The actuals of a declared procedure. Where each begins becomes pending.
#[cycle(phrases)]
fn emit_in_line(
    emitter: &mut Emitter,
    here: Here,
    procedure: Procedure,
    actuals: &[TypedActual],
) -> Result<u32, AllocError>
    requires ready { IsCodableActuals emitter.old actuals.now (calls.InLineFit procedure) }
    ensures { IfOk result (λ m. calls.CodesPending emitter.old emitter.new
        (λ ts. coding.code_actuals (coding_context (scene emitter.old) ts here) (place_in (scene emitter.old) here) (next emitter.old)
        (calls.actuals_given (scene emitter.old) actuals.now) (calls.formals_given (scene emitter.old) procedure))
        (calls.all_ready_marks (calls.actuals_given (scene emitter.old) actuals.now) (calls.formals_given (scene emitter.old) procedure)) m
        (calls.actual_heads (sizes_known (scene emitter.old)) (next emitter.old) (calls.actuals_given (scene emitter.old) actuals.now) (calls.formals_given (scene emitter.old) procedure))) }
{
    let mut marks = 0;
    let mut position = 0;
    for actual in actuals {
        let TypedActual::Phrase(node) = actual else {
            continue;
        };
        let Some(formal) = emitter.symbols.formal(procedure, position) else {
            return Ok(marks);
        };
        let begin = emitter.next()?;
        emitter.pending.push(begin)?;
        let inside = emit_actual(emitter, here, node, formal)?;
        let most = further(inside, 1)?;
        marks = marks.max(most);
        position += 1;
    }
    Ok(marks)
}

/// What assigns the formals of a declared procedure back. Its actuals begin at what is pending, but for the first so
/// many.
#[cycle(phrases)]
fn emit_backs(
    emitter: &mut Emitter,
    here: Here,
    procedure: Procedure,
    pending: usize,
    actuals: &[TypedActual],
) -> Result<u32, AllocError>
    requires ready { IsCodableActuals emitter.old actuals.now (calls.InLineFit procedure) }
    requires heads { drop pending emitter.old.pending.items ≡ calls.actual_heads (sizes_known (scene emitter.old)) (calls.first_pending emitter.old pending)
        (calls.actuals_given (scene emitter.old) actuals.now) (calls.formals_given (scene emitter.old) procedure) }
    ensures { IfOk result (λ m. Codes none_own emitter.old emitter.new
        (λ ts. coding.code_backs (coding.with_entries (1 + procedure.count) (coding_context (scene emitter.old) ts here)) (place_in (scene emitter.old) here) (next emitter.old) 0 (calls.first_pending emitter.old pending)
        (calls.actuals_given (scene emitter.old) actuals.now) (calls.formals_given (scene emitter.old) procedure))
        (calls.all_back_marks (calls.actuals_given (scene emitter.old) actuals.now) (calls.formals_given (scene emitter.old) procedure)) m) }
{
    let entries = further(procedure.count, 1)?;
    let called = here.with_entries(entries)?;
    let mut marks = 0;
    let mut position = 0;
    for actual in actuals {
        let TypedActual::Phrase(node) = actual else {
            continue;
        };
        let Some(formal) = emitter.symbols.formal(procedure, position) else {
            return Ok(marks);
        };
        let text = emitter.pending[pending + position];
        let place = number(position)?;
        let back = emit_back(emitter, called, text, place, node, formal)?;
        marks = marks.max(back);
        position += 1;
    }
    Ok(marks)
}

/// What assigns a formal back to an actual whose code begins there.
#[cycle(phrases)]
fn emit_back(
    emitter: &mut Emitter,
    here: Here,
    text: u32,
    formal: u32,
    node: &Node,
    of: FormalType,
) -> Result<u32, AllocError>
    requires { IsCodableActual emitter.old (node_in node.now) }
    ensures { IfOk result (λ m. Codes none_own emitter.old emitter.new
        (λ ts. coding.code_back (coding_context (scene emitter.old) ts here) (place_in (scene emitter.old) here) (next emitter.old) formal text
        (calls.passed (scene emitter.old) (node_in node.now (scene emitter.old))) (formal_type_view emitter.old.code.given of))
        (calls.back_marks (calls.passed (scene emitter.old) (node_in node.now (scene emitter.old))) (formal_type_view emitter.old.code.given of)) m) }
{
    let ActualKind::Given(given) = actual_kind(emitter, node) else {
        return Ok(0);
    };
    let Gives::Simple(kind) = given.gives else {
        return Ok(0);
    };
    match of {
        FormalType::Result(_) => {
            let place = Branch {
                phrase: given.phrase,
                missing: Instr::Nothing,
            };
            let marks = emit_perhaps(emitter, here, Mode::Place, place)?;
            emitter.append(here, Instr::AssignBack { kind, formal })?;
            further(marks, 1)
        }
        FormalType::ValueResult(_) => {
            let aside = Instr::Aside {
                purpose: Purpose::Place,
                kind: None,
                head: text,
            };
            emitter.append(here, aside)?;
            emitter.append(here, Instr::End)?;
            emitter.append(here, Instr::AssignBack { kind, formal })?;
            Ok(0)
        }
        _ => Ok(0),
    }
}

/// A call of what a procedure formal stands for, which has this entry.
#[cycle(phrases)]
pub fn emit_call_through(
    emitter: &mut Emitter,
    here: Here,
    site: Place,
    name: u32,
    entry: Entry,
    actuals: &[TypedActual],
) -> Result<u32, AllocError>
    requires known { name < length emitter.old.code.given.names }
    requires formal { calls.IsProcedureFormal (standing_of emitter.old.symbols.names name) entry }
    requires ready { calls.IsCodableCall emitter.old true name actuals.now }
    ensures { IfOk result (λ m. Codes none_own emitter.old emitter.new
        (calls.called_code (scene emitter.old) here true site (next emitter.old) (calls.name_phrase (scene emitter.old) name) (calls.actuals_given (scene emitter.old) actuals.now))
        (actuals_marks (calls.actuals_given (scene emitter.old) actuals.now)) m) }
{
    let links = here.links(entry.level);
    let position = entry.position;
    let source = Source::Entry { links, position };
    let pending = emitter.pending.len();
    let marks = emit_texts(emitter, here, actuals)?;
    let end = end_of_call(emitter, actuals)?;
    let call = emitter.compared(source, pending, end)?;
    emitter.append(here, Instr::Compare { call })?;
    prepare(emitter, here, call, phrase_count(actuals)?)?;
    emitter.append(here, Instr::CallThrough { site, call })?;
    place_backs(emitter, here, pending, actuals)?;
    emitter.append(here, Instr::End)?;
    emitter.pending.truncate(pending);
    Ok(marks)
}

/// The texts of the actuals of a call that compares, which become pending.
#[cycle(phrases)]
fn emit_texts(emitter: &mut Emitter, here: Here, actuals: &[TypedActual]) -> Result<u32, AllocError>
    requires { IsCodableActuals emitter.old actuals.now calls.PassedFit }
    ensures { IfOk result (λ m. calls.CodesPending emitter.old emitter.new
        (λ ts. coding.code_texts (coding_context (scene emitter.old) ts here) (place_in (scene emitter.old) here) (next emitter.old) (calls.actuals_given (scene emitter.old) actuals.now))
        (actuals_marks (calls.actuals_given (scene emitter.old) actuals.now)) m
        (coding.text_heads (sizes_known (scene emitter.old)) (next emitter.old) (calls.actuals_given (scene emitter.old) actuals.now))) }
{
    let mut marks = 0;
    for actual in actuals {
        let TypedActual::Phrase(node) = actual else {
            continue;
        };
        let kind = actual_kind(emitter, node);
        let text = emit_text(emitter, here, kind)?;
        emitter.pending.push(text.head)?;
        let most = further(text.marks, 1)?;
        marks = marks.max(most);
    }
    Ok(marks)
}

/// Prepares the actuals of a call that compares.
fn prepare(emitter: &mut Emitter, here: Here, call: u32, count: u32) -> Result<(), AllocError>
    requires fits { CodeFits emitter.old.code }
    requires call { call < length emitter.old.code.added.calls }
    requires count { count ≡ length (calls.compared_call emitter.old [] call).heads }
    ensures { OnOk result (Codes none_own emitter.old emitter.new
        (λ ts. calls.heads_prepared (place_in (scene emitter.old) here) (calls.compared_call emitter.old ts call).source 0 (calls.compared_call emitter.old ts call).heads) 0 0) }
{
    for formal in 0..count {
        emitter.append(here, Instr::Prepare { call, formal })?;
        emitter.append(here, Instr::End)?;
        emitter.append(here, Instr::Push)?;
    }
    Ok(())
}

/// The last instruction of a call that compares, from behind the texts of its actuals on.
fn end_of_call(emitter: &Emitter, actuals: &[TypedActual]) -> Result<u32, AllocError>
    ensures { IfOk result (λ n. n ≡ next emitter.now
        + (1 + (prepares_size (calls.actuals_given (scene emitter.now) actuals.now) + (1 + place_backs_size (calls.actuals_given (scene emitter.now) actuals.now))))) }
{
    let mut end = further(emitter.next()?, 2)?;
    for actual in actuals {
        if let TypedActual::Phrase(node) = actual {
            end = further(end, 3)?;
            if type_given(node.gives).is_some() {
                end = further(end, 3)?;
            }
        }
    }
    Ok(end)
}

/// What assigns back to the actuals of a call that compares, whose texts are pending, but for the first so many.
fn place_backs(
    emitter: &mut Emitter,
    here: Here,
    pending: usize,
    actuals: &[TypedActual],
) -> Result<(), AllocError>
    requires ready { IsCodableActuals emitter.old actuals.now calls.PassedFit }
    requires heads { drop pending emitter.old.pending.items ≡ coding.text_heads (sizes_known (scene emitter.old)) (calls.first_pending emitter.old pending)
        (calls.actuals_given (scene emitter.old) actuals.now) }
    ensures { OnOk result (Codes none_own emitter.old emitter.new
        (λ ts. coding.place_backs_code (sizes_known (scene emitter.old)) (place_in (scene emitter.old) here) 0 (calls.first_pending emitter.old pending)
        (calls.actuals_given (scene emitter.old) actuals.now)) 0 0) }
{
    let mut position = 0;
    for actual in actuals {
        let TypedActual::Phrase(node) = actual else {
            continue;
        };
        let head = emitter.pending[pending + position];
        let formal = number(position)?;
        place_back(emitter, here, formal, head, node.gives)?;
        position += 1;
    }
    Ok(())
}

/// What assigns back to an actual of a call that compares, where it gives a value.
fn place_back(
    emitter: &mut Emitter,
    here: Here,
    formal: u32,
    head: u32,
    gives: Option<Gives>,
) -> Result<(), AllocError>
    requires fits { CodeFits emitter.old.code }
    requires kind { KindsFit emitter.old.code.given (heres.type_given gives) }
    ensures { OnOk result (Codes none_own emitter.old emitter.new
        (λ ts. calls.placed_kind (place_in (scene emitter.old) here) formal head (kinds_view emitter.old.code.given (heres.type_given gives))) 0 0) }
{
    let Some(kind) = type_given(gives) else {
        return Ok(());
    };
    emitter.append(here, Instr::PlaceBack { formal, head })?;
    emitter.append(here, Instr::End)?;
    emitter.append(here, Instr::AssignBack { kind, formal })?;
    Ok(())
}
