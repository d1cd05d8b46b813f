ghost use Rattle.std.specs.Prelude.{◌≡◌};
ghost use Rattle.code_emitter.specs.Operators as operators;

use algolw_tree::Op;

/// The truth value of the left operand that decides an `AND` or an `OR` of LOGICALs, so that the right one isn't evaluated.
pub fn deciding(logical: bool, op: Op) -> Option<bool>
    ensures { result ≡ operators.deciding logical op }
{
    match (logical, op) {
        (true, Op::And) => Some(false),
        (true, Op::Or) => Some(true),
        _ => None,
    }
}
