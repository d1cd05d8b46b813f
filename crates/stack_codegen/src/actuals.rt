ghost use Rattle.std.specs.Prelude.{◌≡◌, ◌<◌, IfOk, None, OnOk, length, map};
ghost use Rattle.program_meaning.specs.Translating as translating;
ghost use Rattle.phrase_code.specs.Coding as coding;
ghost use Rattle.phrase_code.specs.Coding.{◌▸◌};
ghost use Rattle.phrase_code.specs.Marks.{actual_marks};
ghost use Rattle.stack_code.specs.CodeView.{GivenFits, FormalTypeFits, KindFits, formal_type_view, kind_view, mode_view};
ghost use Rattle.stack_code.specs.Instr as instr;
ghost use Rattle.symbol_table.specs.Contexts.{Scene, coding_context, numbers_in, phrase_context};
ghost use Rattle.symbol_table.specs.Parts.{actuals_in};
ghost use Rattle.compilable_programs.specs.Suits.{IsPassed};
ghost use Rattle.code_emitter.specs.declared.emitter.Emitter.{Emitter};
ghost use Rattle.code_emitter.specs.Parts.{Codes, EmitterFits, next, none_own, place_in, scene};
ghost use Rattle.stack_codegen.specs.Calls as calls;
ghost use Rattle.stack_codegen.specs.Codable.{IsCodableActual, node_in};
ghost use Rattle.stack_codegen.specs.Listed as listed;

use crate::lists::{ListUse, emit_listed, first_list};
use crate::phrases::{Branch, emit_perhaps};
use algolw_tree::{Gives, Node, NodeKind, TypedActual};
use code_emitter::{
    Emitter, Passing, passing_of_name, passing_of_phrase, reading_of_name, reading_of_subarray,
};
use stack_code::{FormalType, Instr, Mode, Reading, Stars, TextHead};
use std::alloc::{AllocError, Global};
use symbol_table::{Here, further};
use value_ops::{Place, SimpleType};

/// A phrase that is an actual.
#[derive(Clone, Copy)]
pub(crate) struct Given<'p> {
    /// Whether it is a variable.
    pub is_variable: bool,
    /// What it gives.
    pub gives: Gives,
    /// Its first token.
    pub first: Place,
    /// The phrase, where it isn't empty.
    pub phrase: Option<&'p Node>,
}

/// An actual.
#[derive(Clone, Copy)]
pub(crate) enum ActualKind<'p> {
    /// A phrase.
    Given(Given<'p>),
    /// A name alone, by its place and its number.
    Alone(Place, u32),
    /// A subarray: the number of the name, and the subscripts.
    Subarray(u32, &'p [TypedActual]),
}

/// A text that is coded.
#[derive(Clone, Copy)]
pub(crate) struct TextMade {
    /// The instruction that is its head.
    pub head: u32,
    /// How many marks it may have in each other.
    pub marks: u32,
}

/// How many subscripts are stars.
fn star_count(subscripts: &[TypedActual]) -> Result<u32, AllocError>
    ensures { IfOk result (λ n. n ≡ listed.star_count subscripts.now) }
{
    let mut count = 0;
    for subscript in subscripts {
        if let TypedActual::Star(_) = subscript {
            count = further(count, 1)?;
        }
    }
    Ok(count)
}

/// Which subscripts are stars.
fn stars_among(alloc: Global, subscripts: &[TypedActual]) -> Result<Stars, AllocError>
    ensures { IfOk result (λ stars. stars.are.items ≡ map listed.is_star subscripts.now) }
{
    let mut are = Vec::new(alloc);
    for subscript in subscripts {
        are.push(matches!(subscript, TypedActual::Star(_)))?;
    }
    Ok(Stars { are })
}

/// Whether a phrase is a variable, an array's element or a field, by the name in front.
fn is_variable(emitter: &Emitter, kind: &NodeKind) -> bool
    ensures { result ≡ calls.is_variable_kind emitter.now.symbols.names kind.now }
{
    match kind {
        NodeKind::Named(name, _) => emitter.symbols.standing(*name).is_variable(),
        _ => false,
    }
}

/// What an actual is.
pub(crate) fn actual_kind<'p>(emitter: &Emitter, node: &'p Node) -> ActualKind<'p>
    requires { IsCodableActual emitter.now (node_in node.now) }
    ensures codable { calls.IsCodableKind emitter.now result }
    ensures within { calls.IsWithin node.now result }
    ensures actual { calls.actual_in (scene emitter.now) result ≡ calls.passed (scene emitter.now) (node_in node.now (scene emitter.now)) }
{
    let Some(gives) = node.gives else {
        return actual_without_type(node);
    };
    ActualKind::Given(Given {
        is_variable: is_variable(emitter, &node.kind),
        gives,
        first: node.first,
        phrase: Some(node),
    })
}

/// What an actual is that has no type: it stands for an array or a procedure.
fn actual_without_type(node: &Node) -> ActualKind<'_>
    requires { node.now.gives ≡ None }
    ensures codable { (e : Emitter) → IsCodableActual e (node_in node.now) → calls.IsCodableKind e result }
    ensures within { calls.IsWithin node.now result }
    ensures actual { (s : Scene) → calls.actual_in s result ≡ calls.passed s (node_in node.now s) }
{
    let NodeKind::Named(name, lists) = &node.kind else {
        return ActualKind::Given(Given {
            is_variable: false,
            gives: Gives::Statement,
            first: node.first,
            phrase: None,
        });
    };
    match first_list(lists) {
        Some((subscripts, _)) => ActualKind::Subarray(*name, subscripts),
        None => ActualKind::Alone(node.place, *name),
    }
}

/// How an actual is coded for a formal.
fn passing_of(emitter: &Emitter, kind: ActualKind<'_>, formal: FormalType) -> Passing
    requires tables { GivenFits emitter.now.code.given }
    requires formal { FormalTypeFits emitter.now.code.given formal }
    requires gives { calls.GivenFit emitter.now.code.given kind }
    ensures { result ≡ calls.passing_of emitter.now.code.given kind.entry formal }
{
    match kind {
        ActualKind::Given(given) => {
            passing_of_phrase(&emitter.code, given.is_variable, given.gives, formal)
        }
        ActualKind::Alone(_, name) => passing_of_name(name, formal),
        ActualKind::Subarray(_, _) => Passing::Subarray,
    }
}

/// The head of the text of an actual.
fn text_head(emitter: &Emitter, here: Here, kind: ActualKind<'_>) -> Result<TextHead, AllocError>
    requires fits { EmitterFits emitter.now }
    requires codable { calls.IsCodableKind emitter.now kind }
    ensures { IfOk result (λ head. calls.IsHead emitter.now here (calls.actual_in (scene emitter.now) kind.entry) head) }
{
    Ok(match kind {
        ActualKind::Given(given) => TextHead {
            first: given.first,
            reading: Reading::Phrase {
                is_variable: given.is_variable,
                gives: given.gives,
            },
        },
        ActualKind::Alone(place, name) => TextHead {
            first: place,
            reading: reading_of_name(emitter.symbols.standing(name).read_source(here)),
        },
        ActualKind::Subarray(name, subscripts) => TextHead {
            first: emitter.statement_place(here.statement),
            reading: reading_of_subarray(
                emitter.symbols.standing(name).read_source(here),
                star_count(subscripts)?,
            ),
        },
    })
}

/// A call without actuals that compares, of what stands for a name.
fn bare_call(emitter: &mut Emitter, here: Here, site: Place, name: u32) -> Result<u32, AllocError>
    requires fits { EmitterFits emitter.old }
    requires known { name < length emitter.old.code.given.names }
    ensures { IfOk result (λ m. Codes none_own emitter.old emitter.new
        (λ ts. coding.bare_call (coding_context (scene emitter.old) ts here) (place_in (scene emitter.old) here) site (next emitter.old)
        (coding.stand_of (coding_context (scene emitter.old) ts here) (calls.name_phrase (scene emitter.old) name))) 0 m) }
{
    let standing = emitter.symbols.standing(name);
    let Some(source) = standing.read_source(here) else {
        return emitter.alone(here, Instr::Stuck);
    };
    let end = further(emitter.next()?, 2)?;
    let pending = emitter.pending.len();
    let call = emitter.compared(source, pending, end)?;
    emitter.append(here, Instr::Compare { call })?;
    emitter.append(here, Instr::CallThrough { site, call })?;
    emitter.alone(here, Instr::End)
}

/// What takes a part of an array that a name stands for, behind its subscripts.
fn take_part(
    emitter: &mut Emitter,
    here: Here,
    name: u32,
    subscripts: &[TypedActual],
) -> Result<u32, AllocError>
    requires fits { EmitterFits emitter.old }
    requires known { name < length emitter.old.code.given.names }
    ensures { OnOk result (Codes none_own emitter.old emitter.new
        (λ ts. coding.subarray_code (coding_context (scene emitter.old) ts here) (place_in (scene emitter.old) here)
        (coding.stars_of (translating.subscripts_of (phrase_context (scene emitter.old)) (actuals_in (numbers_in (scene emitter.old)) subscripts.now)))
        (coding.stand_of (coding_context (scene emitter.old) ts here) (calls.name_phrase (scene emitter.old) name))) 0 0) }
{
    let standing = emitter.symbols.standing(name);
    let Some(entry) = standing.entry() else {
        return emitter.append(here, Instr::Stuck);
    };
    let among = stars_among(emitter.alloc, subscripts)?;
    let stars = emitter.code.add_stars(among)?;
    let links = here.links(entry.level);
    let position = entry.position;
    emitter.append(
        here,
        Instr::Subarray {
            links,
            position,
            stars,
        },
    )
}

/// What stands for a name, pushed.
fn hand_on(emitter: &mut Emitter, here: Here, name: u32) -> Result<u32, AllocError>
    requires fits { EmitterFits emitter.old }
    requires known { name < length emitter.old.code.given.names }
    ensures { IfOk result (λ m. Codes none_own emitter.old emitter.new
        (λ ts. coding.hand_on_code (coding_context (scene emitter.old) ts here) (place_in (scene emitter.old) here)
        (coding.stand_of (coding_context (scene emitter.old) ts here) (calls.name_phrase (scene emitter.old) name))
        ▸ coding.one (place_in (scene emitter.old) here) instr.Push) 0 m) }
{
    let standing = emitter.symbols.standing(name);
    emitter.hand_on(here, standing)?;
    emitter.alone(here, Instr::Push)
}

/// An actual of a declared procedure, for its formal; its marks.
#[cycle(phrases)]
pub fn emit_actual(
    emitter: &mut Emitter,
    here: Here,
    node: &Node,
    formal: FormalType,
) -> Result<u32, AllocError>
    requires codable { IsCodableActual emitter.old (node_in node.now) }
    requires formal { FormalTypeFits emitter.old.code.given formal }
    requires passed { IsPassed (calls.passed (scene emitter.old) (node_in node.now (scene emitter.old))) (formal_type_view emitter.old.code.given formal) }
    ensures { IfOk result (λ m. Codes none_own emitter.old emitter.new
        (λ ts. coding.code_actual (coding_context (scene emitter.old) ts here) (place_in (scene emitter.old) here) (next emitter.old)
        (calls.passed (scene emitter.old) (node_in node.now (scene emitter.old))) (formal_type_view emitter.old.code.given formal))
        (calls.ready_marks (calls.passed (scene emitter.old) (node_in node.now (scene emitter.old))) (formal_type_view emitter.old.code.given formal)) m) }
{
    let kind = actual_kind(emitter, node);
    match passing_of(emitter, kind, formal) {
        Passing::Value(of) => emit_value(emitter, here, kind, of),
        Passing::Reserve => emitter.alone(here, Instr::Reserve),
        Passing::Aside(of) => {
            let text = emit_text(emitter, here, kind)?;
            emitter.aside(here, text.head, of)?;
            Ok(text.marks)
        }
        Passing::Thunk(of, is_variable) => {
            let text = emit_text(emitter, here, kind)?;
            emitter.thunk(here, text.head, of, is_variable)?;
            Ok(text.marks)
        }
        Passing::HandOn(name) => hand_on(emitter, here, name),
        Passing::Subarray => {
            let marks = emit_content(emitter, here, Mode::Value, kind)?;
            emitter.append(here, Instr::Push)?;
            Ok(marks)
        }
        Passing::Stuck => emitter.alone(here, Instr::Stuck),
    }
}

/// The value of an actual, made into a type and pushed.
#[cycle(phrases)]
fn emit_value(
    emitter: &mut Emitter,
    here: Here,
    kind: ActualKind<'_>,
    of: SimpleType,
) -> Result<u32, AllocError>
    requires fits { EmitterFits emitter.old }
    requires codable { calls.IsCodableKind emitter.old kind }
    requires kind { KindFits emitter.old.code.given of }
    ensures { IfOk result (λ m. Codes none_own emitter.old emitter.new
        (λ ts. calls.content_code (coding_context (scene emitter.old) ts here) (place_in (scene emitter.old) here) instr.the_value (next emitter.old) (calls.actual_in (scene emitter.old) kind.entry)
        ▸ coding.one (place_in (scene emitter.old) here) (instr.Make (kind_view emitter.old.code.given of)) ▸ coding.one (place_in (scene emitter.old) here) instr.Push)
        (actual_marks (calls.actual_in (scene emitter.old) kind.entry)) m) }
{
    let marks = emit_content(emitter, here, Mode::Value, kind)?;
    emitter.append(here, Instr::Make(of))?;
    emitter.append(here, Instr::Push)?;
    Ok(marks)
}

/// The text of an actual.
#[cycle(phrases)]
pub fn emit_text(
    emitter: &mut Emitter,
    here: Here,
    kind: ActualKind<'_>,
) -> Result<TextMade, AllocError>
    requires fits { EmitterFits emitter.old }
    requires codable { calls.IsCodableKind emitter.old kind }
    ensures head { IfOk result (λ text. text.head ≡ next emitter.old) }
    ensures coded { IfOk result (λ text. Codes none_own emitter.old emitter.new
        (λ ts. coding.code_text (coding_context (scene emitter.old) ts here) (place_in (scene emitter.old) here) (next emitter.old) (calls.actual_in (scene emitter.old) kind.entry))
        (actual_marks (calls.actual_in (scene emitter.old) kind.entry)) text.marks) }
{
    let head = text_head(emitter, here, kind)?;
    let text = emitter.open_text(here, head)?;
    let marks = emit_content(emitter, here.inner_text(0)?, Mode::AsAsked, kind)?;
    emitter.close_text(here, text)?;
    let head = text.head;
    Ok(TextMade { head, marks })
}

/// What is executed of an actual.
#[cycle(phrases)]
fn emit_content(
    emitter: &mut Emitter,
    here: Here,
    mode: Mode,
    kind: ActualKind<'_>,
) -> Result<u32, AllocError>
    requires fits { EmitterFits emitter.old }
    requires codable { calls.IsCodableKind emitter.old kind }
    ensures { IfOk result (λ m. Codes none_own emitter.old emitter.new
        (λ ts. calls.content_code (coding_context (scene emitter.old) ts here) (place_in (scene emitter.old) here) (mode_view mode) (next emitter.old) (calls.actual_in (scene emitter.old) kind.entry))
        (actual_marks (calls.actual_in (scene emitter.old) kind.entry)) m) }
{
    match kind {
        ActualKind::Given(given) => {
            let missing = Instr::Nothing;
            let phrase = given.phrase;
            emit_perhaps(emitter, here, mode, Branch { phrase, missing })
        }
        ActualKind::Alone(place, name) => bare_call(emitter, here, place, name),
        ActualKind::Subarray(name, subscripts) => {
            let marks = emit_listed(emitter, here, ListUse::Subscripts, subscripts)?;
            take_part(emitter, here, name, subscripts)?;
            Ok(marks)
        }
    }
}
