ghost use Rattle.std.specs.Prelude.{◌≡◌, IfOk, IfSome};
ghost use Rattle.std.specs.Option.{option_map};
ghost use Rattle.algolw_tree.specs.declared.standard.Standard.TheVariants as standard;
ghost use Rattle.stack_codegen.specs.Codable.{CodesNode, IsCodable, IsCodableActuals};
ghost use Rattle.stack_codegen.specs.Names as names;
ghost use Rattle.stack_codegen.specs.Writes as writes;

use crate::lists::first_list;
use crate::phrases::emit_phrase;
use algolw_tree::{Gives, Node, NodeKind, Standard, TypedActual, TypedList, Width};
use code_emitter::Emitter;
use stack_code::{Instr, Mode};
use std::alloc::AllocError;
use symbol_table::{Here, Standing, further};

/// How far a WRITE is coded.
#[derive(Clone, Copy)]
pub(crate) struct Writing {
    /// Where its next part is coded.
    pub here: Here,
    /// Whether the next value begins a line.
    pub first: bool,
    /// Where the widths stand that it has set, if it has set any.
    pub position: Option<u32>,
}

impl Writing {
    /// With its widths in an entry, a new one where there is none.
    fn opened(self) -> Result<Writing, AllocError>
        ensures { IfOk result (λ w. w ≡ writes.opened self) }
    {
        match self.position {
            Some(_) => Ok(self),
            None => Ok(Writing {
                here: self.here.with_entries(1)?,
                first: self.first,
                position: Some(self.here.entries),
            }),
        }
    }

    /// Behind a value.
    fn behind_value(self) -> Writing
        ensures { result ≡ writes.behind_value self }
    {
        Writing {
            here: self.here,
            first: false,
            position: self.position,
        }
    }

    /// The end of the WRITE: the entry of its widths is given back, where there is one.
    fn end(self) -> Instr
        ensures { result ≡ writes.end self }
    {
        match self.position {
            Some(position) => Instr::CloseWidths { position },
            None => Instr::Nothing,
        }
    }

    /// The mark of the entry of its widths.
    fn marks(self) -> u32
        ensures { result ≡ writes.own_marks self }
    {
        match self.position {
            Some(_) => 1,
            None => 0,
        }
    }
}

/// Whether what a phrase gives is that it is done.
fn is_statement(gives: Option<Gives>) -> bool
    ensures { result ≡ writes.is_statement gives }
{
    matches!(gives, Some(Gives::Statement))
}

/// The standard variable that a name stands for.
fn width_of(standing: Standing) -> Option<Width>
    ensures { result ≡ writes.width_of standing }
{
    match standing {
        Standing::Standard(Standard::Variable(width)) => Some(width),
        _ => None,
    }
}

/// The standard variable that a phrase is, by the name in front.
fn width_named(emitter: &Emitter, kind: &NodeKind) -> Option<Width>
    ensures { result ≡ writes.width_named emitter.now.symbols.names kind.now }
{
    match kind {
        NodeKind::Named(name, _) => width_of(emitter.symbols.standing(*name)),
        _ => None,
    }
}

/// The standard variable that is assigned to, and what it gets; nothing where the phrase is no such assignment.
fn width_assigned<'t>(emitter: &Emitter, kind: &'t NodeKind) -> Option<(Width, &'t Node)>
    ensures width { option_map (λ r. r.0) result ≡ writes.width_assigned emitter.now.symbols.names kind.now }
    ensures value { IfSome result (λ r. writes.Assigns kind.now r.1.now) }
{
    match kind {
        NodeKind::Assign(target, value) => {
            let width = width_named(emitter, &target.kind)?;
            Some((width, value))
        }
        _ => None,
    }
}

/// The width that a part of WRITE sets, and what it is set to; nothing where the part is placed.
fn setting<'t>(emitter: &Emitter, node: &'t Node) -> Option<(Width, &'t Node)>
    ensures width { option_map (λ r. r.0) result ≡ writes.set_in emitter.now.symbols.names node.now }
    ensures value { IfSome result (λ r. writes.Assigns node.now.kind r.1.now) }
{
    if is_statement(node.gives) {
        width_assigned(emitter, &node.kind)
    } else {
        None
    }
}

/// WRITE or WRITEON, with the lists behind it.
#[cycle(phrases)]
pub fn emit_write(
    emitter: &mut Emitter,
    here: Here,
    mode: Mode,
    node: &Node,
    name: u32,
    first: bool,
    lists: &[TypedList],
) -> Result<u32, AllocError>
    requires codable { IsCodable emitter.old (names.named_node node.now name lists.now) }
    requires stands { names.IsStandard emitter.old name (standard.Write first) }
    ensures { IfOk result (λ m. CodesNode emitter.old emitter.new here mode (names.named_node node.now name lists.now) m) }
{
    match first_list(lists) {
        Some((actuals, _)) => {
            let inner = here.in_statement(node.statement);
            emitter.append(inner, Instr::Begin)?;
            emit_writes(emitter, inner, first, actuals)
        }
        None => {
            let standing = emitter.symbols.standing(name);
            emitter.name(here, mode, standing)
        }
    }
}

/// The parts of a WRITE, and its end.
#[cycle(phrases)]
fn emit_writes(
    emitter: &mut Emitter,
    here: Here,
    first: bool,
    actuals: &[TypedActual],
) -> Result<u32, AllocError>
    requires { IsCodableActuals emitter.old actuals.now writes.WritesSuit }
    ensures { IfOk result (λ m. writes.CodesWrites emitter.old emitter.new here first actuals.now m) }
{
    let mut writing = Writing {
        here,
        first,
        position: None,
    };
    let mut marks = 0;
    for actual in actuals {
        let TypedActual::Phrase(node) = actual else {
            continue;
        };
        let (inside, behind) = emit_written(emitter, writing, node)?;
        marks = marks.max(inside);
        writing = behind;
    }
    emitter.append(writing.here, writing.end())?;
    further(writing.marks(), marks)
}

/// A part of a WRITE: a value, or a setting.
#[cycle(phrases)]
fn emit_written(
    emitter: &mut Emitter,
    writing: Writing,
    node: &Node,
) -> Result<(u32, Writing), AllocError>
    requires { writes.IsCodableWritten emitter.old node.now }
    ensures { IfOk result (λ both. writes.CodesWritten emitter.old emitter.new writing node.now both.0 both.1) }
{
    match setting(emitter, node) {
        Some((width, value)) => {
            let marks = emit_phrase(emitter, writing.here, Mode::Value, value)?;
            let position = writing.position;
            emitter.append(writing.here, Instr::SetWidth { width, position })?;
            Ok((marks, writing.opened()?))
        }
        None => {
            let marks = emit_phrase(emitter, writing.here, Mode::Value, node)?;
            let Writing {
                first,
                position,
                ..
            } = writing;
            emitter.append(writing.here, Instr::Write { first, position })?;
            Ok((marks, writing.behind_value()))
        }
    }
}
