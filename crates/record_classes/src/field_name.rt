ghost use Rattle.std.specs.Prelude.{◌≡◌, ◌∷◌, []};
ghost use Rattle.std.specs.Cmp.{partial_equiv_from_equiv};
ghost use Rattle.std.specs.Cmp.Lexicographic.{nat_list_eq_equiv};
ghost use Rattle.std.specs.Cmp.Rules.{hashing};
ghost use Rattle.std.specs.Str.{bytes_eq};
ghost use Rattle.std.proofs.Common.{rules};

use std::hash::{Hash, Hasher};
use std::marker::Model;
use value_ops::Name;

/// The name of a field, by which its position is found.
#[derive(Drop)]
pub(crate) struct FieldName {
    name: Name,
}

impl Model for FieldName {
    ghost use Rattle.std.specs.Prelude.{ℕ, List};

    ghost Value = { List ℕ };

    ghost view = { λ field. field.name };
}

impl FieldName {
    /// The key that a name is.
    pub(crate) fn new(name: &Name) -> FieldName
        ensures { result ≡ name.now }
    {
        FieldName { name: *name }
    }
}

/// Equal where the names are.
impl PartialEq for FieldName {
    ghost eq = { bytes_eq };

    ghost laws = { partial_equiv_from_equiv nat_list_eq_equiv };

    fn eq(&self, other: &FieldName) -> bool {
        self.name == other.name
    }
}

impl Eq for FieldName {
    ghost laws = { nat_list_eq_equiv };
}

impl Hash for FieldName {
    ghost hash_input = { λ name. name ∷ [] };

    ghost respects_eq = { Prim.search (hashing, rules) };

    fn hash<H: Hasher>(&self, state: &mut H) {
        state.write(self.name.as_slice());
    }
}
