ghost use Rattle.std.specs.Prelude.{◌≡◌, IfOk, MatchOption, OnOk, false, option_copied, true};
ghost use Rattle.std.specs.List.{All};
ghost use Rattle.stack_code.specs.CodeView.{InstrFits, KindFits};
ghost use Rattle.symbol_table.specs.Heres as heres;
ghost use Rattle.symbol_table.specs.Parts.{lists_in};
ghost use Rattle.symbol_table.specs.Symbols.{field_at};
ghost use Rattle.algolw_typing.specs.ProgramView.{Numbers};
ghost use Rattle.code_emitter.specs.Parts.{is_plain};
ghost use Rattle.stack_codegen.specs.Codable.{IsCodableActuals, IsCodableLists};
ghost use Rattle.stack_codegen.specs.Listed as listed;

use crate::names::emit_parts;
use crate::phrases::{emit_before, emit_phrase};
use algolw_tree::{Gives, Node, TypedActual, TypedList, TypedListKind};
use code_emitter::{Emitter, variable_type};
use stack_code::{Instr, Mode};
use std::alloc::AllocError;
use symbol_table::{Class, Here, further};

/// What the phrases of a list are for.
#[derive(Clone, Copy)]
pub(crate) enum ListUse {
    /// Subscripts.
    Subscripts,
    /// The values of the fields of a class.
    Fields(Class),
    /// What is read, from the next card on or not.
    Read { next: bool },
    /// The cards that are read.
    ReadCard,
}

/// What is done with a list behind a name.
#[derive(Clone, Copy)]
pub(crate) struct ListPlan {
    /// Whether it is a statement of its own.
    pub begins: bool,
    /// What its phrases are for; nothing where the first counts alone.
    pub list: Option<ListUse>,
    /// What is done behind it.
    pub does: Instr,
    /// How long the string is that is given where the lists behind it are parts of it.
    pub whole: Option<u16>,
}

impl ListUse {
    /// What is wanted of each of them.
    fn mode(self) -> Mode
        ensures { result ≡ listed.wanted self }
    {
        match self {
            ListUse::Read { next: _ } | ListUse::ReadCard => Mode::Place,
            _ => Mode::Value,
        }
    }
}

impl ListPlan {
    /// Where it is coded: in its statement, if it is one.
    pub(crate) fn place(self, here: Here, statement: Option<u32>) -> Here
        ensures { result ≡ listed.plan_here self.begins here statement }
    {
        if self.begins {
            here.in_statement(statement)
        } else {
            here
        }
    }
}

/// How many phrases a list has.
pub(crate) fn phrase_count(actuals: &[TypedActual]) -> Result<u32, AllocError>
    ensures { IfOk result (λ n. n ≡ listed.phrase_count actuals.now) }
{
    let mut count = 0;
    for actual in actuals {
        if let TypedActual::Phrase(_) = actual {
            count = further(count, 1)?;
        }
    }
    Ok(count)
}

/// The first phrase of a list.
fn first_phrase(actuals: &[TypedActual]) -> Option<&Node>
    ensures { option_copied result ≡ listed.first_phrase actuals.now }
{
    for actual in actuals {
        if let TypedActual::Phrase(node) = actual {
            return Some(node);
        }
    }
    None
}

/// The lists behind a name, where the first is one of phrases: that, and the lists behind it.
pub(crate) fn first_list(lists: &[TypedList]) -> Option<(&[TypedActual], &[TypedList])>
    ensures { MatchOption result ((ns : Numbers) → listed.begins_with_phrases (lists_in ns lists.now) ≡ false)
        (λ parts. listed.AreParted lists.now parts.0.now parts.1.now) }
{
    let (first, rest) = lists.split_first()?;
    match &first.kind {
        TypedListKind::Actuals(actuals) => Some((actuals.as_slice(), rest)),
        TypedListKind::Part(_, _) => None,
    }
}

/// What is done with the phrase at a position of a list.
fn behind(
    emitter: &mut Emitter,
    here: Here,
    list: ListUse,
    position: usize,
    gives: Option<Gives>,
) -> Result<u32, AllocError>
    requires kind { KindFits emitter.old.code.given (heres.variable_type gives) }
    requires fields { All (KindFits emitter.old.code.given) emitter.old.symbols.fields }
    ensures { OnOk result (emitter.new ≡ listed.behind emitter.old here list position gives) }
{
    let is_first = position == 0;
    let kind = variable_type(gives);
    match list {
        ListUse::Subscripts => emitter.append(here, Instr::Push),
        ListUse::Fields(class) => field(emitter, here, class, position),
        ListUse::Read { next } => {
            let next = next && is_first;
            emitter.append(here, Instr::Read { next, kind })
        }
        ListUse::ReadCard => emitter.append(here, Instr::ReadCard(kind)),
    }
}

/// A value for the field of a class at a position.
fn field(
    emitter: &mut Emitter,
    here: Here,
    class: Class,
    position: usize,
) -> Result<u32, AllocError>
    requires { All (KindFits emitter.old.code.given) emitter.old.symbols.fields }
    ensures { OnOk result (emitter.new ≡ listed.with_field emitter.old here (field_at emitter.old.symbols class position)) }
{
    match emitter.symbols.field_type(class, position) {
        Some(kind) => {
            emitter.append(here, Instr::Make(kind))?;
            emitter.append(here, Instr::Push)
        }
        None => {
            emitter.append(here, Instr::Stuck)?;
            emitter.append(here, Instr::Stuck)
        }
    }
}

/// The begin of a list that is a statement of its own.
fn begin_list(emitter: &mut Emitter, here: Here, begins: bool) -> Result<(), AllocError>
    ensures { OnOk result (emitter.new ≡ listed.list_begun emitter.old here begins) }
{
    if begins {
        emitter.append(here, Instr::Begin)?;
    }
    Ok(())
}

/// A list behind a name, and what is done with it.
#[cycle(phrases)]
pub fn emit_with_list(
    emitter: &mut Emitter,
    here: Here,
    plan: ListPlan,
    actuals: &[TypedActual],
) -> Result<u32, AllocError>
    requires ready { IsCodableActuals emitter.old actuals.now (listed.ListedSuits plan.list) }
    requires fits { InstrFits emitter.old.code.given emitter.old.code.added plan.does }
    requires plain { is_plain plan.does ≡ true }
    ensures { IfOk result (λ m. listed.CodesPlan emitter.old emitter.new here plan actuals.now m) }
{
    begin_list(emitter, here, plan.begins)?;
    match plan.list {
        Some(list) => {
            let marks = emit_listed(emitter, here, list, actuals)?;
            emitter.append(here, plan.does)?;
            Ok(marks)
        }
        None => emit_before(emitter, here, first_phrase(actuals), plan.does),
    }
}

/// The parts of what is given, where it is a string.
#[cycle(phrases)]
pub fn emit_parts_of_given(
    emitter: &mut Emitter,
    here: Here,
    marks: u32,
    whole: Option<u16>,
    rest: &[TypedList],
) -> Result<u32, AllocError>
    requires { IsCodableLists emitter.old rest.now (listed.PartsSuit whole) }
    ensures { IfOk result (λ m. listed.ContinuesParts emitter.old emitter.new here whole rest.now marks m) }
{
    match whole {
        Some(whole) => emit_parts(emitter, here, marks, whole, rest),
        None => Ok(marks),
    }
}

/// The phrases of a list, each with what is done with it.
#[cycle(phrases)]
pub fn emit_listed(
    emitter: &mut Emitter,
    here: Here,
    list: ListUse,
    actuals: &[TypedActual],
) -> Result<u32, AllocError>
    requires { IsCodableActuals emitter.old actuals.now (listed.UseSuits list) }
    ensures { IfOk result (λ m. listed.CodesListed emitter.old emitter.new here list actuals.now m) }
{
    let mut marks = 0;
    let mut position = 0;
    for actual in actuals {
        let TypedActual::Phrase(node) = actual else {
            continue;
        };
        let inside = emit_phrase(emitter, here, list.mode(), node)?;
        behind(emitter, here, list, position, node.gives)?;
        marks = marks.max(inside);
        position += 1;
    }
    Ok(marks)
}
