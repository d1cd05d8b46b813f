ghost use Rattle.std.specs.Prelude.{◌≡◌, ◌∷◌, suc, length};
ghost use Rattle.std.specs.Option.{option_map};
ghost use Rattle.algolw_typing.specs.Names.{declared};
ghost use Rattle.algolw_typing.specs.Scopes as scopes;
ghost use Rattle.name_scopes.specs.Marks.{mark_of};
ghost use Rattle.name_scopes.specs.Nearest.{Nearest};
ghost use Rattle.declared_names.specs.KnownPaths.{known_of};
ghost use Rattle.declared_names.specs.KnownView.{entry_of};
ghost use Rattle.declared_names.specs.Standards.{standard_path};

use crate::innermost::Innermost;
use crate::known::{Known, KnownScope};
use crate::standard::standard_known;
use algolw_tree::Spelling;
use name_scopes::{EachMark, MARKS, mark_of};
use std::marker::Model;
use value_ops::Place;

/// What stands innermost, and the path that stands around it.
type Around<'s, 't, 'a> = Option<(Innermost<'s, 't, 'a>, &'s KnownPath<'s, 't, 'a>)>;

/// The scopes in which a phrase stands, the innermost first. The last is that of the standard names, which stands around
/// each program.
#[derive(Drop)]
pub struct KnownPath<'s, 't, 'a> {
    /// What stands innermost and the scopes around it, where there is more than the standard names.
    scopes: Around<'s, 't, 'a>,
    /// For each mark where a name with it is looked for behind what stands innermost: from the nearest scope on that has the
    /// mark, or among the standard names alone.
    nearest: EachMark<Option<&'s KnownPath<'s, 't, 'a>>>,
}

impl<'s, 't, 'a> Model for KnownPath<'s, 't, 'a> {
    ghost use Rattle.std.specs.Prelude.{length};
    ghost use Rattle.algolw_typing.specs.Scopes.{Scopes};

    ghost Value = { Scopes };

    ghost use Rattle.declared_names.specs.KnownPaths.{path_of, IsPath};

    ghost view = { λ p. path_of p.scopes };

    ghost invariant = { λ p. IsPath p.scopes p.nearest.each };

    ghost size = { length };

    ghost use Rattle.declared_names.specs.PathSizes.{sizes_fall};

    ghost size_decreases = { λ a h. sizes_fall a.scopes a.nearest.each h };
}

impl<'s, 't, 'a> KnownPath<'s, 't, 'a> {
    /// The scope of the standard names alone.
    pub fn standard() -> KnownPath<'s, 't, 'a>
        ensures { result ≡ standard_path }
    {
        let nothing: Option<&'s KnownPath<'s, 't, 'a>> = None;
        let nearest = EachMark::of([nothing; MARKS]);
        let scopes: Around<'s, 't, 'a> = None;
        KnownPath { scopes, nearest }
    }

    /// A scope, and those around it.
    pub fn inner(
        own: &'s KnownScope<'t, 'a>,
        outer: &'s KnownPath<'s, 't, 'a>,
    ) -> KnownPath<'s, 't, 'a>
        ensures { result ≡ own.now ∷ outer.now }
    {
        KnownPath::linked(Innermost::Names(own), outer)
    }

    /// The control name of a FOR, which is declared at this place, and the scopes around it.
    pub fn control(
        name: &'t Spelling,
        place: Place,
        outer: &'s KnownPath<'s, 't, 'a>,
    ) -> KnownPath<'s, 't, 'a>
        ensures { result ≡ scopes.control_scope place name.now ∷ outer.now }
    {
        KnownPath::linked(Innermost::Control(name, place), outer)
    }

    /// What stands innermost, and the scopes around it.
    fn linked(own: Innermost<'s, 't, 'a>, outer: &'s KnownPath<'s, 't, 'a>) -> KnownPath<'s, 't, 'a>
        ensures { result ≡ known_of own.entry ∷ outer.now }
    {
        let nearest = outer.nearest();
        KnownPath {
            scopes: Some((own, outer)),
            nearest,
        }
    }

    /// For each mark where a name with it is looked for along this path.
    fn nearest(&'s self) -> EachMark<Option<&'s KnownPath<'s, 't, 'a>>>
        ensures { Nearest standard_path self.now 64 (suc (length self.now)) result.each }
    {
        let Some((own, _)) = self.scopes else {
            return self.nearest;
        };
        let mut each = self.nearest.each;
        for mark in 0..MARKS {
            if own.has_mark(mark) {
                each[mark] = Some(self);
            }
        }
        EachMark::of(each)
    }

    /// The declaration that a name has here.
    pub fn declared(&self, name: &Spelling) -> Option<Known<'a>>
        ensures { option_map (entry_of name.now) result ≡ declared self.now name.now }
    {
        self.declared_marked(name, mark_of(name.as_slice()))
    }

    /// The declaration that a name with this mark has here.
    fn declared_marked(&self, name: &Spelling, mark: usize) -> Option<Known<'a>>
        requires { mark ≡ mark_of name.now }
        ensures { option_map (entry_of name.now) result ≡ declared self.now name.now }
    {
        let Some((own, _)) = self.scopes else {
            return standard_known(name);
        };
        if let Some(known) = own.find_marked(name, mark) {
            return Some(known);
        }
        let nearest = &self.nearest.each[..];
        match nearest[mark] {
            Some(path) => path.declared_marked(name, mark),
            None => standard_known(name),
        }
    }
}
