ghost use Rattle.std.specs.Prelude.{◌≡◌, ◌<◌, ◌≤◌, ◌∷◌, [], ◌++◌, IfOk, List, OnErr, OnOk, false, length, take, slice_index_or};
ghost use Rattle.std.specs.Option.{is_some};
ghost use Rattle.algolw_typing.specs.Names.{in_scope};
ghost use Rattle.algolw_typing.specs.Naming.{scope_of};
ghost use Rattle.algolw_tree.specs.Tree.{Placed};
ghost use Rattle.name_scopes.specs.Firsts.{Firsts, FirstsOf, first_of, lent};
ghost use Rattle.name_scopes.specs.Marks.{mark_of, Unmarked};

use crate::key::Key;
use crate::marks::{MARKS, mark_of};
use algolw_tree::Spelling;
use std::alloc::{AllocError, Global};
use std::collections::HashMap;
use std::marker::Model;
use value_ops::Place;

/// The names that a scope declares, in the order of their declarations. Each stands beside its place in the program as it
/// was read.
#[derive(Drop)]
pub struct Scope<'t> {
    names: Vec<&'t (Spelling, Place)>,
    /// Where among the names each stands first; `None` of few names, among which one is found by looking at each.
    first: Option<HashMap<Key<'t>, u32>>,
    /// Which marks they have.
    marks: [bool; MARKS],
}

/// How many names are few.
const FEW: usize = 8;

impl<'t> Model for Scope<'t> {
    ghost use Rattle.std.specs.Prelude.{List};
    ghost use Rattle.algolw_tree.specs.Tree.{Placed};

    ghost Value = { List Placed };

    ghost use Rattle.name_scopes.specs.Firsts.{FirstsOf, lent};
    ghost use Rattle.name_scopes.specs.Marks.{Marked};

    ghost view = { λ s. lent s.names.items };

    ghost invariant = { λ s. FirstsOf (lent s.names.items) s.first × Marked (lent s.names.items) s.marks };
}

impl<'t> Scope<'t> {
    /// A scope that declares nothing.
    pub fn new(alloc: Global) -> Scope<'t>
        ensures { result ≡ [] }
    {
        Scope {
            names: Vec::new(alloc),
            first: None,
            marks: [false; MARKS],
        }
    }

    /// Declares a name at its place.
    pub fn declare(&mut self, declared: &'t (Spelling, Place)) -> Result<(), AllocError>
        ensures added { OnOk result (self.new ≡ self.old ++ declared.now ∷ []) }
        ensures unchanged { OnErr result (self.new ≡ self.old) }
    {
        let Ok(position) = u32::try_from(self.names.len()) else {
            return Err(AllocError);
        };
        self.names.push(declared)?;
        let (name, _) = declared;
        if let Err(error) = note(&mut self.first, &self.names, declared, position) {
            self.names.pop();
            return Err(error);
        }
        self.marks[mark_of(name.as_slice())] = true;
        Ok(())
    }

    /// What it declares.
    pub fn names(&self) -> &[&'t (Spelling, Place)]
        ensures { lent result.now ≡ self.now }
    {
        self.names.as_slice()
    }

    /// The name at a position, and its place.
    pub fn name_at(&self, position: usize) -> &'t (Spelling, Place)
        requires { position < length self.now }
        ensures { result.now ≡ slice_index_or self.now position result.now }
    {
        self.names[position]
    }

    /// How many names it declares.
    pub fn len(&self) -> usize
        ensures { result ≡ length self.now }
    {
        self.names.len()
    }

    /// Whether it may declare a name with this mark.
    pub fn has_mark(&self, mark: usize) -> bool
        requires { mark < 64 }
        ensures { result ≡ false → Unmarked self.now mark }
    {
        self.marks[mark]
    }

    /// Where among its names the first one of a name stands.
    pub fn find(&self, name: &Spelling) -> Option<u32>
        ensures { result ≡ first_of self.now name.now }
    {
        match &self.first {
            Some(first) => first.get(&Key::new(name)).copied(),
            None => first_among(&self.names, name),
        }
    }

    /// Where among its names the first one of a name with this mark stands.
    pub fn find_marked(&self, name: &Spelling, mark: usize) -> Option<u32>
        requires { mark ≡ mark_of name.now }
        ensures { result ≡ first_of self.now name.now }
    {
        if self.marks[mark] {
            self.find(name)
        } else {
            None
        }
    }

    /// Whether it declares a name before this position.
    pub fn has_before(&self, name: &Spelling, position: usize) -> bool
        ensures { result ≡ is_some (in_scope (scope_of (take position self.now)) name.now) }
    {
        match self.find(name) {
            Some(first) => (first as usize) < position,
            None => false,
        }
    }
}

/// Notes the newest of these names, which stands at this position.
fn note<'t>(
    first: &mut Option<HashMap<Key<'t>, u32>>,
    names: &Vec<&'t (Spelling, Place)>,
    declared: &'t (Spelling, Place),
    position: u32,
) -> Result<(), AllocError>
    ghost before: { List Placed }
    requires held { FirstsOf before first.old }
    requires at { position ≡ length before }
    requires newest { lent names.now.items ≡ before ++ declared.now ∷ [] }
    ensures noted { OnOk result (FirstsOf (lent names.now.items) first.new) }
    ensures kept { OnErr result (FirstsOf before first.new) }
{
    match first {
        Some(first) => {
            let (name, _) = declared;
            first.entry(Key::new(name))?.or_insert(position);
        }
        None => {
            if names.len() > FEW {
                *first = Some(firsts_of(names)?);
            }
        }
    }
    Ok(())
}

/// Where among these names each stands first.
fn firsts_of<'t>(names: &Vec<&'t (Spelling, Place)>) -> Result<HashMap<Key<'t>, u32>, AllocError>
    requires { length names.now.items < 4294967295 }
    ensures { IfOk result (λ first. Firsts (lent names.now.items) first) }
{
    let mut first = HashMap::new(*names.allocator());
    for (position, declared) in names.iter().enumerate() {
        let (name, _) = *declared;
        first.entry(Key::new(name))?.or_insert(position as u32);
    }
    Ok(first)
}

/// Where among few names the first one of a name stands.
fn first_among(names: &[&(Spelling, Place)], name: &Spelling) -> Option<u32>
    requires { length names.now ≤ 8 }
    ensures { result ≡ first_of (lent names.now) name.now }
{
    for (position, declared) in names.iter().enumerate() {
        let (other, _) = *declared;
        if other.as_slice() == name.as_slice() {
            return Some(position as u32);
        }
    }
    None
}
