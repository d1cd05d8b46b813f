ghost use Rattle.std.specs.Prelude.{◌≡◌};
ghost use Rattle.std.specs.List.{list_all};
ghost use Rattle.stack_code.specs.declared.heads.Formal.{Formal};
ghost use Rattle.stack_code.specs.Limits as limits;

use crate::heads::{Formal, FormalType, ProcedureHead, Reading, TextHead};
use crate::instructions::Instr;
use algolw_tree::Gives;
use value_ops::SimpleType;

/// The most characters of a string.
const MOST_CHARACTERS: u16 = 256;

/// The most dimensions of an array.
pub(crate) const MOST_DIMENSIONS: usize = 8;

/// The most formals of a procedure.
const MOST_FORMALS: usize = 65536;

/// Whether a machine holds values of a type.
fn is_kind(kind: SimpleType) -> bool
    ensures { result ≡ limits.is_kind kind }
{
    match kind {
        SimpleType::Str(length) => 1 <= length && length <= MOST_CHARACTERS,
        _ => true,
    }
}

/// Whether it holds values of a type, where there is one.
fn is_kind_or_none(kind: Option<SimpleType>) -> bool
    ensures { result ≡ limits.is_kind_or_none kind }
{
    match kind {
        Some(kind) => is_kind(kind),
        None => true,
    }
}

/// Whether it holds what a formal stands for.
fn is_formal(of: FormalType) -> bool
    ensures { result ≡ limits.is_formal of }
{
    match of {
        FormalType::ByName(kind)
        | FormalType::Value(kind)
        | FormalType::Result(kind)
        | FormalType::ValueResult(kind)
        | FormalType::Array {
            kind,
            dimensions: _,
        } => is_kind(kind),
        FormalType::Procedure(result) => is_kind_or_none(result),
    }
}

impl ProcedureHead {
    /// Whether a machine can run the procedure.
    pub(crate) fn is_within_limits(&self) -> bool
        ensures { result ≡ limits.is_procedure self.now }
    {
        is_kind_or_none(self.result)
            && self.formals.len() <= MOST_FORMALS
            && are_formals(&self.formals)
    }
}

/// Whether it holds what formals stand for.
fn are_formals(formals: &[Formal]) -> bool
    ensures { result ≡ list_all (λ (f : Formal). limits.is_formal f.is) formals.now }
{
    formals.iter().all(|formal| is_formal(formal.is))
}

impl TextHead {
    /// Whether a machine can compare the actual.
    pub(crate) fn is_within_limits(self) -> bool
        ensures { result ≡ limits.is_text self }
    {
        match self.reading {
            Reading::Phrase {
                is_variable: _,
                gives: Gives::Simple(kind),
            } => is_kind(kind),
            _ => true,
        }
    }
}

impl Instr {
    /// Whether a machine can run the instruction.
    pub(crate) fn is_within_limits(self) -> bool
        ensures { result ≡ limits.is_instr self }
    {
        match self {
            Instr::Make(kind)
            | Instr::Assign { kind, gives: _ }
            | Instr::Read { next: _, kind }
            | Instr::ReadCard(kind)
            | Instr::AssignBack { kind, formal: _ }
            | Instr::DeclareArray { kind, name: _ } => is_kind(kind),
            Instr::MakeThunk { kind, .. } | Instr::Aside { kind, .. } => is_kind_or_none(kind),
            Instr::Bounds(count) | Instr::Element { count, .. } => {
                count as usize <= MOST_DIMENSIONS
            }
            Instr::Part { whole, count: _ } => whole <= MOST_CHARACTERS,
            _ => true,
        }
    }
}
