ghost use Rattle.std.specs.Prelude.{◌≡◌, ℕ, ◌<◌, List, ◌∷◌, [], ◌++◌, OnOk, None, false, length, slice_index_or, take};
ghost use Rattle.std.specs.Option.{option_map};
ghost use Rattle.algolw_typing.specs.Names.{Entry, in_scope};
ghost use Rattle.algolw_typing.specs.Scopes as scopes;
ghost use Rattle.algolw_typing.specs.Typing as rules;
ghost use Rattle.typing_rules.specs.MeaningView as view;
ghost use Rattle.declared_names.specs.KnownView.{entry_of, entry_with, facts_view, known_view};
ghost use Rattle.declared_names.specs.Seconds.{second_fault};
ghost use Rattle.algolw_typing.specs.Naming.{placed_of};
ghost use Rattle.name_scopes.specs.Firsts.{lent};
ghost use Rattle.name_scopes.specs.Marks.{mark_of};

use algolw_tree::Spelling;
use name_scopes::Scope;
use std::alloc::{AllocError, Global};
use std::marker::Model;
use typing_rules::{Meaning, Reading};
use value_ops::Place;

/// What is known of a name that a scope declares.
#[derive(Clone, Copy)]
pub struct Known<'a> {
    /// The place of its declaration.
    pub place: Place,
    /// Whether it is a record class.
    pub is_class: bool,
    /// How the parts of a list behind it are read.
    pub reading: Reading<'a>,
    /// What it means, where its declaration is good.
    pub means: Option<Meaning<'a>>,
}

/// What is known of names that are declared alike.
#[derive(Clone, Copy)]
pub enum Facts<'a> {
    /// They mean nothing yet, and are no record classes.
    Nothing,
    /// It is a record class, which means nothing yet.
    Class,
    /// They are labels.
    Label,
    /// What their declaration makes of them.
    Declared(&'a Declared<'a>),
}

/// What a declaration makes of its names.
#[derive(Clone, Copy)]
pub struct Declared<'a> {
    /// Whether it is a record class.
    pub is_class: bool,
    /// How the parts of a list behind them are read.
    pub reading: Reading<'a>,
    /// What they mean, where their declaration is good.
    pub means: Option<Meaning<'a>>,
}

/// The place that stands for what is not declared.
const NOWHERE: Place = Place { card: 0, column: 0 };

/// The place of a declaration, which stands for it.
pub fn place_of(known: Option<Known<'_>>) -> Place
    ensures { (x : List ℕ) → result ≡ rules.target (option_map (entry_of x) known.entry) }
{
    match known {
        None => NOWHERE,
        Some(known) => known.place,
    }
}

/// What a name with this declaration means, where it has one that is good.
pub fn meaning_of(known: Option<Known<'_>>) -> Option<Meaning<'_>>
    ensures { (x : List ℕ) → option_map view.meaning result ≡ rules.meaning_of (option_map (entry_of x) known.entry) }
{
    match known {
        None => None,
        Some(known) => known.means,
    }
}

/// What a scope declares, in order of place.
#[derive(Drop)]
pub struct KnownScope<'t, 'a> {
    names: Scope<'t>,
    /// What is known of each.
    facts: Vec<Facts<'a>>,
}

impl<'t, 'a> Model for KnownScope<'t, 'a> {
    ghost use Rattle.std.specs.Prelude.{List};
    ghost use Rattle.algolw_typing.specs.Names as typing_names;
    ghost use Rattle.algolw_typing.specs.Scopes as rules;
    ghost use Rattle.declared_names.specs.KnownView.{entries_of};
    ghost use Rattle.declared_names.specs.KnownHeld.{AsMany};

    ghost Value = { List (typing_names.Entry rules.Known) };

    ghost view = { λ s. entries_of s.names s.facts.items };

    ghost invariant = { λ s. AsMany s.names s.facts.items };
}

impl<'t, 'a> KnownScope<'t, 'a> {
    /// A scope that declares nothing.
    pub fn new(alloc: Global) -> KnownScope<'t, 'a>
        ensures { result ≡ [] }
    {
        KnownScope {
            names: Scope::new(alloc),
            facts: Vec::new(alloc),
        }
    }

    /// Declares a name at its place, of which this is known.
    #[tactic(auto, using(crate::proofs::Knowing::one_more))]
    pub fn declare(
        &mut self,
        name: &'t (Spelling, Place),
        facts: Facts<'a>,
    ) -> Result<(), AllocError>
        ensures { OnOk result (self.new ≡ self.old ++ entry_with name.now (facts_view facts.entry) ∷ []) }
    {
        self.facts.push(facts)?;
        if self.names.declare(name).is_err() {
            self.facts.pop();
            return Err(AllocError);
        }
        Ok(())
    }

    /// Whether it may declare a name with this mark.
    pub fn has_mark(&self, mark: usize) -> bool
        requires { mark < 64 }
        ensures { result ≡ false → (x : List ℕ) → mark_of x ≡ mark → in_scope self.now x ≡ None }
    {
        self.names.has_mark(mark)
    }

    /// The first declaration of a name with this mark.
    pub fn find_marked(&self, name: &Spelling, mark: usize) -> Option<Known<'a>>
        requires { mark ≡ mark_of name.now }
        ensures { option_map (entry_of name.now) result ≡ in_scope self.now name.now }
    {
        match self.names.find_marked(name, mark) {
            None => None,
            Some(position) => {
                let (_, place) = self.names.name_at(position as usize);
                let facts = self.facts[position as usize];
                Some(known_at(*place, facts))
            }
        }
    }

    /// The names that it declares.
    pub fn names(&self) -> &[&'t (Spelling, Place)]
        ensures { lent result.now ≡ placed_of self.now }
    {
        self.names.names()
    }

    /// How many names it declares.
    pub fn len(&self) -> usize
        ensures { result ≡ length self.now }
    {
        self.names.len()
    }

    /// The place of the declaration at a position, where its name is declared before.
    pub fn second_at(&self, position: usize) -> Option<Place>
        requires { position < length self.now }
        ensures { (e : Entry scopes.Known) → second_fault result
            ≡ scopes.again (take position self.now) (slice_index_or self.now position e) }
    {
        let (name, place) = self.names.name_at(position);
        if self.names.has_before(name, position) {
            Some(*place)
        } else {
            None
        }
    }
}

/// What is known of a name that is declared at a place.
fn known_at<'a>(place: Place, facts: Facts<'a>) -> Known<'a>
    ensures place { result.place ≡ place }
    ensures known { known_view result ≡ facts_view facts.entry }
{
    let (is_class, reading, means) = match facts {
        Facts::Nothing => (false, Reading::AsPhrases, None),
        Facts::Class => (true, Reading::AsPhrases, None),
        Facts::Label => (false, Reading::AsPhrases, Some(Meaning::Label)),
        Facts::Declared(declared) => (declared.is_class, declared.reading, declared.means),
    };
    Known {
        place,
        is_class,
        reading,
        means,
    }
}
