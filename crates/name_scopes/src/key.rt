ghost use Rattle.std.specs.Prelude.{◌≡◌, ◌∷◌, []};
ghost use Rattle.std.specs.Cmp.{partial_equiv_from_equiv};
ghost use Rattle.std.specs.Cmp.Lexicographic.{nat_list_eq_equiv};
ghost use Rattle.std.specs.Cmp.Rules.{hashing};
ghost use Rattle.std.specs.Str.{bytes_eq};
ghost use Rattle.std.proofs.Common.{rules};

use algolw_tree::Spelling;
use std::hash::{Hash, Hasher};
use std::marker::Model;

/// A name by which a table finds what it holds.
#[derive(Drop)]
pub(crate) struct Key<'t> {
    name: &'t Spelling,
}

impl<'t> Model for Key<'t> {
    ghost use Rattle.std.specs.Prelude.{ℕ, List};

    ghost Value = { List ℕ };

    ghost view = { λ key. key.name.now };
}

impl<'t> Key<'t> {
    /// The key that a name is.
    pub(crate) fn new(name: &'t Spelling) -> Key<'t>
        ensures { result ≡ name.now }
    {
        Key { name }
    }
}

/// Equal where the names are.
impl<'t> PartialEq for Key<'t> {
    ghost eq = { bytes_eq };

    ghost laws = { partial_equiv_from_equiv nat_list_eq_equiv };

    fn eq(&self, other: &Key<'t>) -> bool {
        self.name.as_slice() == other.name.as_slice()
    }
}

impl<'t> Eq for Key<'t> {
    ghost laws = { nat_list_eq_equiv };
}

impl<'t> Hash for Key<'t> {
    ghost hash_input = { λ name. name ∷ [] };

    ghost respects_eq = { Prim.search (hashing, rules) };

    fn hash<H: Hasher>(&self, state: &mut H) {
        state.write(self.name.as_slice());
    }
}
