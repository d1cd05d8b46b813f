ghost use Rattle.std.specs.Prelude.{◌≡◌, IfOk};

use algolw_tree::Spelling;
use std::alloc::AllocError;
use value_ops::Name;

/// How many characters a name has at most.
const LONGEST: usize = 80;

/// A name by itself. The scanner makes none that is too long.
pub fn name_of(spelling: &Spelling) -> Result<Name, AllocError>
    ensures { IfOk result (λ name. name ≡ spelling.now) }
{
    let text = spelling.as_slice();
    if text.len() > LONGEST {
        return Err(AllocError);
    }
    Ok(Name::from_slice(text))
}
