ghost use Rattle.std.specs.Prelude.{◌≡◌, ◌<◌, IfOk, IfSome, length, map, true};
ghost use Rattle.std.specs.Option.{option_map};
ghost use Rattle.algolw_typing.specs.Known.{AllHad, KnowsType, KnowsResult, KnowsGives, KnowsDeclared};
ghost use Rattle.algolw_typing.specs.ProgramView.{numbered, set_view, type_view, gives_view};
ghost use Rattle.algolw_typing.specs.Types.{has};
ghost use Rattle.algolw_typing.specs.Typing.{declare_at};
ghost use Rattle.record_classes.specs.Classes.{set_of};
ghost use Rattle.typed_findings.specs.Findings.{finding_view, statement_of};
ghost use Rattle.typing_rules.specs.ClassSets.{Rising};
ghost use Rattle.typing_rules.specs.View.{phrase_type, value_type};
ghost use Rattle.program_numbers.specs.Makes.{Makes, HasMembers, places_in, target_in};
ghost use Rattle.program_numbers.specs.Numbered.{StatementNumbered};

use crate::place_numbers::PlaceNumbers;
use crate::table_builder::TableBuilder;
use algolw_tree::{Gives, Literal, Spelling, Targets};
use std::alloc::{AllocError, Global};
use typed_findings::Finding;
use typing_rules::{PhraseType, ValueType};
use value_ops::{ClassId, Place, SetId, SimpleType};

/// How many characters a string that is written out has at most.
const LONGEST: usize = 80;

/// The numbers of names, record classes and statements, by their places.
#[derive(Drop)]
pub(crate) struct Numbering {
    /// Where what is made is held.
    pub alloc: Global,
    /// The names.
    pub names: PlaceNumbers,
    /// The record classes.
    pub classes: PlaceNumbers,
    /// The statements.
    pub statements: PlaceNumbers,
}

impl Numbering {
    /// The places of the statements.
    pub fn into_statements(self) -> Vec<Place>
        ensures { result.items ≡ self.statements }
    {
        let Numbering {
            alloc: _,
            names: _,
            classes: _,
            statements,
        } = self;
        statements.into_places()
    }

    /// The names that are declared, each by its number. Most stand side by side, so that the next has the next number.
    pub fn targets(&self, names: &[(Spelling, Place)]) -> Result<Targets, AllocError>
        requires { KnowsDeclared self.now.names (declare_at names.now) }
        ensures { IfOk result (λ targets. map (target_in self.now) targets.items ≡ declare_at names.now) }
    {
        let mut targets = Vec::with_capacity(self.alloc, names.len())?;
        let mut next = 0;
        for name in names {
            let number = self.names.likely_number(next, name.1);
            targets.push((number, name.1))?;
            next = number.saturating_add(1);
        }
        Ok(targets)
    }

    /// The number of a phrase of which this was found, where it is a statement that is counted.
    pub fn statement(&self, own: Finding) -> Option<u32>
        requires { StatementNumbered self.now (statement_of (finding_view own)) }
        ensures { option_map (numbered self.now.statements) result ≡ statement_of (finding_view own.entry) }
    {
        match own {
            Finding::Counted(first) => Some(self.statements.number(first)),
            _ => None,
        }
    }

    /// A string that is written out, held apart. The scanner makes none that is too long.
    pub fn literal(&self, text: &[u8]) -> Result<Box<Literal>, AllocError>
        ensures { IfOk result (λ held. held.value ≡ text.now) }
    {
        if text.len() > LONGEST {
            return Err(AllocError);
        }
        let held = Box::new(self.alloc, Literal::from_slice(text))?;
        Ok(held)
    }

    /// The number of a record class.
    fn class(&self, class: Place) -> Result<ClassId, AllocError>
        requires { has self.now.classes class ≡ true }
        ensures place { IfOk result (λ id. numbered self.now.classes id.0 ≡ class) }
        ensures within { IfOk result (λ id. id.0 < length self.now.classes) }
    {
        match u16::try_from(self.classes.number(class)) {
            Ok(number) => Ok(ClassId(number)),
            Err(_) => Err(AllocError),
        }
    }

    /// The numbers of record classes.
    fn class_ids(&self, classes: &[Place]) -> Result<Vec<ClassId>, AllocError>
        requires { AllHad self.now.classes classes.now }
        ensures places { IfOk result (λ ids. places_in self.now.classes ids.items ≡ classes.now) }
        ensures members { IfOk result (λ ids. HasMembers self.now.classes ids.items) }
    {
        let mut ids = Vec::with_capacity(self.alloc, classes.len())?;
        for class in classes {
            ids.push(self.class(*class)?)?;
        }
        Ok(ids)
    }

    /// Whether these numbers of record classes are those of the classes at these places, one by one.
    fn are_at(&self, ids: &[ClassId], places: &[Place]) -> bool
        ensures { result ≡ true → places_in self.now.classes ids.now ≡ places.now }
    {
        if ids.len() != places.len() {
            return false;
        }
        for (id, place) in ids.iter().zip(places) {
            if !self.classes.is_at(u32::from(id.0), *place) {
                return false;
            }
        }
        true
    }

    /// The number of a set of record classes, where the table has it and it's found without being made again.
    fn known_set(&self, table: &TableBuilder, classes: &[Place]) -> Option<SetId>
        ensures there { IfSome result (λ set. set.0 < length table.now.sets) }
        ensures same { IfSome result (λ set. places_in self.now.classes (set_of table.now set) ≡ classes.now) }
    {
        let set = table.likely_number(classes)?;
        if self.are_at(table.set_classes(set), classes) {
            Some(set)
        } else {
            None
        }
    }

    /// The number of a set of record classes, which is added to the table where it isn't there.
    fn set(&self, table: &mut TableBuilder, classes: &[Place]) -> Result<SetId, AllocError>
        requires had { AllHad self.now.classes classes.now }
        requires rising { Rising classes.now }
        ensures { IfOk result (λ set. Makes self.now table.old table.new (λ ns. set_view ns set.0) classes.now) }
    {
        if let Some(set) = self.known_set(table, classes) {
            return Ok(set);
        }
        let ids = self.class_ids(classes)?;
        if table.set_count() >= 65535 {
            return Err(AllocError);
        }
        table.add_set(classes, ids)
    }

    /// A type.
    pub fn simple_type(
        &self,
        table: &mut TableBuilder,
        of: ValueType,
    ) -> Result<SimpleType, AllocError>
        requires { KnowsType self.now.classes (value_type of) }
        ensures { IfOk result (λ made. Makes self.now table.old table.new (λ ns. type_view ns made)
            (value_type of.entry)) }
    {
        match of {
            ValueType::Integer => Ok(SimpleType::Integer),
            ValueType::Logical => Ok(SimpleType::Logical),
            ValueType::Bits => Ok(SimpleType::Bits),
            ValueType::Str(length) => match u16::try_from(length) {
                Ok(length) => Ok(SimpleType::Str(length)),
                Err(_) => Err(AllocError),
            },
            ValueType::Reference(classes) => {
                Ok(SimpleType::Reference(self.set(table, classes.places())?))
            }
        }
    }

    /// A type that may be missing.
    pub fn perhaps_type(
        &self,
        table: &mut TableBuilder,
        of: Option<ValueType>,
    ) -> Result<Option<SimpleType>, AllocError>
        requires { KnowsResult self.now.classes (option_map value_type of) }
        ensures { IfOk result (λ made. Makes self.now table.old table.new (λ ns. option_map (type_view ns) made)
            (option_map value_type of.entry)) }
    {
        match of {
            Some(of) => Ok(Some(self.simple_type(table, of)?)),
            None => Ok(None),
        }
    }

    /// What a phrase gives.
    pub fn gives(
        &self,
        table: &mut TableBuilder,
        gives: Option<PhraseType>,
    ) -> Result<Option<Gives>, AllocError>
        requires { KnowsGives self.now.classes (option_map phrase_type gives) }
        ensures { IfOk result (λ made. Makes self.now table.old table.new (λ ns. option_map (gives_view ns) made)
            (option_map phrase_type gives.entry)) }
    {
        match gives {
            Some(PhraseType::Value(of)) => Ok(Some(Gives::Simple(self.simple_type(table, of)?))),
            Some(PhraseType::Statement) => Ok(Some(Gives::Statement)),
            None => Ok(None),
        }
    }
}
