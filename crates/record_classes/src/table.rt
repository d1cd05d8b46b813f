ghost use Rattle.std.specs.Prelude.{[], ◌≡◌, ◌<◌, ◌∷◌, ◌++◌, IfOk, OnErr, OnOk, length};
ghost use Rattle.record_classes.specs.Classes.{Classes, no_classes, with_class, with_set, number_of, has, set_of, class_of, position_of};

use crate::class::Class;
use crate::class_set::ClassSet;
use std::alloc::{AllocError, Global};
use std::collections::BTreeMap;
use std::marker::Model;
use value_ops::{ClassId, Name, SetId, SimpleType};

/// The record classes of a program, and the sets of classes that its references are to. A class and a set go by their
/// numbers, in the order in which they were added.
#[derive(Drop)]
pub struct ClassTable {
    classes: Vec<Class>,
    sets: Vec<ClassSet>,
    /// The number of each set, by its members.
    numbers: BTreeMap<Vec<ClassId>, SetId>,
}

impl Model for ClassTable {
    ghost use Rattle.record_classes.specs.Classes.{Classes};

    ghost Value = { Classes };

    ghost use Rattle.record_classes.specs.Held.{Numbers};

    ghost view = { λ t. record { classes = t.classes.items; sets = t.sets.items } };

    ghost invariant = { λ t. Numbers t.sets.items t.numbers };
}

impl ClassTable {
    /// No classes and no sets.
    pub fn new(alloc: Global) -> ClassTable
        ensures { result ≡ no_classes }
    {
        ClassTable {
            classes: Vec::new(alloc),
            sets: Vec::new(alloc),
            numbers: BTreeMap::new(alloc),
        }
    }

    /// The same table, held anew.
    pub fn copied(&self, alloc: Global) -> Result<ClassTable, AllocError>
        ensures { IfOk result (λ table. table ≡ self.now) }
    {
        let mut table = ClassTable::new(alloc);
        for class in &self.classes {
            table.classes.push(class.copied()?)?;
        }
        for set in &self.sets {
            table.push_set(set.copied()?)?;
        }
        Ok(table)
    }

    /// Adds a set, also where an equal one is there.
    fn push_set(&mut self, set: ClassSet) -> Result<(), AllocError>
        ensures { OnOk result (self.new ≡ record self.old { sets = self.old.sets ++ set ∷ [] }) }
    {
        let Ok(number) = u16::try_from(self.sets.len()) else {
            return Err(AllocError);
        };
        let members = set.members()?;
        self.sets.push(set)?;
        if let Some(_number) = self.numbers.get(&members) {
            return Ok(());
        }
        if self.numbers.insert(members, SetId(number)).is_err() {
            self.sets.pop();
            return Err(AllocError);
        }
        Ok(())
    }

    /// How many classes there are.
    pub fn class_count(&self) -> usize
        ensures { result ≡ length self.now.classes }
    {
        self.classes.len()
    }

    /// How many sets there are.
    pub fn set_count(&self) -> usize
        ensures { result ≡ length self.now.sets }
    {
        self.sets.len()
    }

    /// Adds a class, whose number is the count of the classes before it.
    pub fn add_class(
        &mut self,
        name: Name,
        fields: Vec<(Name, SimpleType)>,
    ) -> Result<ClassId, AllocError>
        requires room { length self.old.classes < 65535 }
        requires field_room { length fields.items < 4294967295 }
        ensures number { IfOk result (λ class. class.0 ≡ length self.old.classes) }
        ensures added { OnOk result (self.new ≡ with_class self.old name fields.items) }
        ensures unchanged { OnErr result (self.new ≡ self.old) }
    {
        let class = Class::new(name, fields)?;
        let number = ClassId(self.classes.len() as u16);
        self.classes.push(class)?;
        Ok(number)
    }

    /// The number of a set, which is added where no equal one is there: equal sets get equal numbers, in whichever order
    /// their classes stand.
    pub fn add_set(&mut self, classes: Vec<ClassId>) -> Result<SetId, AllocError>
        requires { length self.old.sets < 65535 }
        ensures number { IfOk result (λ set. set.0 ≡ number_of self.old.sets classes.items) }
        ensures added { OnOk result (self.new ≡ with_set self.old classes.items) }
        ensures unchanged { OnErr result (self.new ≡ self.old) }
    {
        let set = ClassSet::new(classes)?;
        let members = set.members()?;
        if let Some(number) = self.numbers.get(&members) {
            return Ok(*number);
        }
        let number = SetId(self.sets.len() as u16);
        self.sets.push(set)?;
        if self.numbers.insert(members, number).is_err() {
            self.sets.pop();
            return Err(AllocError);
        }
        Ok(number)
    }

    /// Whether a set has a class.
    pub fn set_has(&self, set: SetId, class: ClassId) -> bool
        requires { set.0 < length self.now.sets }
        ensures { result ≡ has (set_of self.now set) class }
    {
        self.sets[usize::from(set.0)].has(class)
    }

    /// The position of a field among the fields of a class, from 0, where it has such a field.
    pub fn find(&self, class: ClassId, field: &Name) -> Option<u32>
        requires { class.0 < length self.now.classes }
        ensures { result ≡ position_of (class_of self.now class).fields field.now }
    {
        self.classes[usize::from(class.0)].find(field)
    }

    /// The name of a class.
    pub fn class_name(&self, class: ClassId) -> &Name
        requires { class.0 < length self.now.classes }
        ensures { result.now ≡ (class_of self.now class).name }
    {
        self.classes[usize::from(class.0)].name()
    }

    /// The fields of a class, each with its type, as they were added.
    pub fn fields(&self, class: ClassId) -> &[(Name, SimpleType)]
        requires { class.0 < length self.now.classes }
        ensures { result.now ≡ (class_of self.now class).fields }
    {
        self.classes[usize::from(class.0)].fields()
    }

    /// The classes of a set, as they were first added.
    pub fn set_classes(&self, set: SetId) -> &[ClassId]
        requires { set.0 < length self.now.sets }
        ensures { result.now ≡ set_of self.now set }
    {
        self.sets[usize::from(set.0)].classes()
    }
}
