ghost use Rattle.std.specs.Prelude.{◌≡◌};
ghost use Rattle.stack_code.specs.CodeView.{FormalTypeFits, GivenFits, GivesFits};
ghost use Rattle.code_emitter.specs.Passings as passings;

use algolw_tree::Gives;
use stack_code::{Code, FormalType, is_variable_of};
use value_ops::SimpleType;

/// How an actual of a declared procedure is coded in line.
#[derive(Clone, Copy)]
pub enum Passing {
    /// Its value, made into a type and pushed.
    Value(SimpleType),
    /// A cell without a value.
    Reserve,
    /// The value of its text, made into a type and pushed.
    Aside(SimpleType),
    /// Its text, copied, for a variable or not.
    Thunk(Option<SimpleType>, bool),
    /// What stands for its name.
    HandOn(u32),
    /// A part of an array.
    Subarray,
    /// It doesn't suit the formal.
    Stuck,
}

/// How a phrase that may be a variable, and gives this, is coded for a formal.
pub fn passing_of_phrase(
    code: &Code,
    is_variable: bool,
    gives: Gives,
    formal: FormalType,
) -> Passing
    requires tables { GivenFits code.now.given }
    requires gives { GivesFits code.now.given gives }
    requires formal { FormalTypeFits code.now.given formal }
    ensures { result ≡ passings.of_phrase code.now.given is_variable gives formal }
{
    match formal {
        FormalType::Value(kind) => Passing::Value(kind),
        FormalType::Result(_) => Passing::Reserve,
        FormalType::ValueResult(kind) => Passing::Aside(kind),
        FormalType::ByName(kind) => {
            Passing::Thunk(Some(kind), is_variable_of(code, kind, is_variable, gives))
        }
        FormalType::Procedure(result) => Passing::Thunk(result, false),
        FormalType::Array {
            kind: _,
            dimensions: _,
        } => Passing::Stuck,
    }
}

/// How a name alone, by its number, is coded for a formal.
pub fn passing_of_name(name: u32, formal: FormalType) -> Passing
    ensures { result ≡ passings.of_name name formal }
{
    match formal {
        FormalType::Value(kind) => Passing::Value(kind),
        FormalType::ByName(kind) => Passing::Thunk(Some(kind), false),
        FormalType::Procedure(_)
        | FormalType::Array {
            kind: _,
            dimensions: _,
        } => Passing::HandOn(name),
        FormalType::Result(_) | FormalType::ValueResult(_) => Passing::Stuck,
    }
}
