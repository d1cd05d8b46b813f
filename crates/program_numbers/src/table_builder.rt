ghost use Rattle.std.specs.Prelude.{◌≡◌, ◌<◌, IfOk, IfSome, OnOk, length};
ghost use Rattle.record_classes.specs.Classes.{no_classes, number_of, set_of, with_class, with_set};

use record_classes::ClassTable;
use std::alloc::{AllocError, Global};
use std::collections::BTreeMap;
use std::marker::Model;
use value_ops::{ClassId, Name, Place, SetId, SimpleType};

/// A table of record classes that is being made.
#[derive(Drop)]
pub(crate) struct TableBuilder {
    alloc: Global,
    table: ClassTable,
    /// The number of each set that was added, by the places of its classes.
    numbers: BTreeMap<Vec<Place>, SetId>,
}

impl Model for TableBuilder {
    ghost use Rattle.record_classes.specs.Classes.{Classes};

    ghost Value = { Classes };

    ghost view = { λ b. b.table };
}

impl TableBuilder {
    /// No classes and no sets.
    pub(crate) fn new(alloc: Global) -> TableBuilder
        ensures { result ≡ no_classes }
    {
        TableBuilder {
            alloc,
            table: ClassTable::new(alloc),
            numbers: BTreeMap::new(alloc),
        }
    }

    /// How many classes there are.
    pub(crate) fn class_count(&self) -> usize
        ensures { result ≡ length self.now.classes }
    {
        self.table.class_count()
    }

    /// How many sets there are.
    pub(crate) fn set_count(&self) -> usize
        ensures { result ≡ length self.now.sets }
    {
        self.table.set_count()
    }

    /// Adds a class, whose number is the count of the classes before it.
    pub(crate) fn add_class(
        &mut self,
        name: Name,
        fields: Vec<(Name, SimpleType)>,
    ) -> Result<ClassId, AllocError>
        requires room { length self.old.classes < 65535 }
        requires field_room { length fields.items < 4294967295 }
        ensures number { IfOk result (λ class. class.0 ≡ length self.old.classes) }
        ensures added { OnOk result (self.new ≡ with_class self.old name fields.items) }
    {
        self.table.add_class(name, fields)
    }

    /// The number that the set of the classes at these places may have: it's for the caller to test.
    pub(crate) fn likely_number(&self, places: &[Place]) -> Option<SetId>
        ensures { IfSome result (λ set. set.0 < length self.now.sets) }
    {
        let set = *self.numbers.get(places)?;
        if usize::from(set.0) < self.table.set_count() {
            Some(set)
        } else {
            None
        }
    }

    /// The number of a set, which is added where no equal one is there. It's found again by the places of its classes.
    pub(crate) fn add_set(
        &mut self,
        places: &[Place],
        classes: Vec<ClassId>,
    ) -> Result<SetId, AllocError>
        requires { length self.old.sets < 65535 }
        ensures number { IfOk result (λ set. set.0 ≡ number_of self.old.sets classes.items) }
        ensures added { OnOk result (self.new ≡ with_set self.old classes.items) }
    {
        let mut key = Vec::with_capacity(self.alloc, places.len())?;
        key.extend_from_slice(places)?;
        let set = self.table.add_set(classes)?;
        self.numbers.insert(key, set)?;
        Ok(set)
    }

    /// The classes of a set, as they were first added.
    pub(crate) fn set_classes(&self, set: SetId) -> &[ClassId]
        requires { set.0 < length self.now.sets }
        ensures { result.now ≡ set_of self.now set }
    {
        self.table.set_classes(set)
    }

    /// The table.
    pub(crate) fn into_table(self) -> ClassTable
        ensures { result ≡ self }
    {
        let TableBuilder {
            alloc: _,
            table,
            numbers: _,
        } = self;
        table
    }
}
