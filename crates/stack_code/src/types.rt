ghost use Rattle.std.specs.Prelude.{◌≡◌, ◌<◌, length};
ghost use Rattle.algolw_typing.specs.ProgramView.{gives_view};
ghost use Rattle.algolw_typing.specs.Types as types;
ghost use Rattle.program_meaning.specs.Copying as copying;
ghost use Rattle.value_ops.specs.declared.values.SimpleType.TheVariants as SimpleType;
ghost use Rattle.stack_code.specs.CodeView.{GivenFits, GivesFits, KindFits, kind_view, numbers};

use crate::code::Code;
use algolw_tree::Gives;
use value_ops::{SetId, SimpleType};

/// Whether two types are the same.
pub fn is_same(code: &Code, one: SimpleType, other: SimpleType) -> bool
    requires whole { GivenFits code.now.given }
    requires one { KindFits code.now.given one }
    requires other { KindFits code.now.given other }
    ensures { result ≡ types.is_same (kind_view code.now.given one) (kind_view code.now.given other) }
{
    match (one, other) {
        (SimpleType::Integer, SimpleType::Integer)
        | (SimpleType::Logical, SimpleType::Logical)
        | (SimpleType::Bits, SimpleType::Bits) => true,
        (SimpleType::Str(one), SimpleType::Str(other)) => one == other,
        (SimpleType::Reference(one), SimpleType::Reference(other)) => is_same_set(code, one, other),
        _ => false,
    }
}

/// Whether two sets have the same classes.
fn is_same_set(code: &Code, one: SetId, other: SetId) -> bool
    requires whole { GivenFits code.now.given }
    requires one { one.0 < length code.now.given.classes.sets }
    requires other { other.0 < length code.now.given.classes.sets }
    ensures { result ≡ types.is_same (kind_view code.now.given (SimpleType.Reference one)) (kind_view code.now.given (SimpleType.Reference other)) }
{
    code.set_classes(one) == code.set_classes(other)
}

/// Whether a phrase that may be a variable, and gives this, stands for a variable of just a type.
pub fn is_variable_of(code: &Code, kind: SimpleType, is_variable: bool, gives: Gives) -> bool
    requires tables { GivenFits code.now.given }
    requires kind { KindFits code.now.given kind }
    requires gives { GivesFits code.now.given gives }
    ensures { result ≡ copying.is_variable_of (kind_view code.now.given kind) is_variable (gives_view (numbers code.now.given) gives) }
{
    match gives {
        Gives::Simple(given) => is_variable && is_same(code, given, kind),
        Gives::Statement => false,
    }
}
