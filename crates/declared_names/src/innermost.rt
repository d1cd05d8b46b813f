ghost use Rattle.std.specs.Prelude.{◌≡◌, ℕ, ◌<◌, List, None, false};
ghost use Rattle.std.specs.Option.{option_map};
ghost use Rattle.algolw_typing.specs.Names.{in_scope};
ghost use Rattle.algolw_typing.specs.Scopes as scopes;
ghost use Rattle.name_scopes.specs.Marks.{mark_of};
ghost use Rattle.declared_names.specs.KnownPaths.{known_of};
ghost use Rattle.declared_names.specs.KnownView.{entry_of};

use crate::known::{Known, KnownScope};
use algolw_tree::Spelling;
use name_scopes::is_marked;
use typing_rules::{Meaning, Reading};
use value_ops::Place;

/// What stands innermost along a path.
#[derive(Clone, Copy)]
pub(crate) enum Innermost<'s, 't, 'a> {
    /// A scope.
    Names(&'s KnownScope<'t, 'a>),
    /// The control name of a FOR alone, at its place.
    Control(&'t Spelling, Place),
}

impl<'s, 't, 'a> Innermost<'s, 't, 'a> {
    /// Whether it may declare a name with this mark.
    pub(crate) fn has_mark(self, mark: usize) -> bool
        requires { mark < 64 }
        ensures { result ≡ false → (x : List ℕ) → mark_of x ≡ mark → in_scope (known_of self.entry) x ≡ None }
    {
        match self {
            Innermost::Names(scope) => scope.has_mark(mark),
            Innermost::Control(name, _) => is_marked(name, mark),
        }
    }

    /// The first declaration of a name with this mark.
    pub(crate) fn find_marked(self, name: &Spelling, mark: usize) -> Option<Known<'a>>
        requires { mark ≡ mark_of name.now }
        ensures { option_map (entry_of name.now) result ≡ in_scope (known_of self.entry) name.now }
    {
        match self {
            Innermost::Names(scope) => scope.find_marked(name, mark),
            Innermost::Control(control, place) => find_control(control, place, name),
        }
    }
}

/// What is known of the control name of a FOR, which is declared at this place, where it is this name.
fn find_control<'a>(control: &Spelling, place: Place, name: &Spelling) -> Option<Known<'a>>
    ensures { option_map (entry_of name.now) result
        ≡ in_scope (scopes.control_scope place control.now) name.now }
{
    if control.as_slice() == name.as_slice() {
        Some(Known {
            place,
            is_class: false,
            reading: Reading::AsPhrases,
            means: Some(Meaning::Control),
        })
    } else {
        None
    }
}
