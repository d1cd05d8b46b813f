ghost use Rattle.std.specs.Prelude.{◌≡◌, ◌<◌, ◌≤◌, IfOk, length};
ghost use Rattle.record_classes.specs.Classes.{position_of};
ghost use Rattle.record_classes.specs.Held.{Positions};

use crate::field_name::FieldName;
use std::alloc::AllocError;
use std::collections::HashMap;
use std::marker::Model;
use value_ops::{Name, SimpleType};

/// A record class.
#[derive(Drop)]
pub(crate) struct Class {
    name: Name,
    fields: Vec<(Name, SimpleType)>,
    /// Where among the fields each name stands first; `None` of few fields, among which a name is found by looking at each.
    positions: Option<Box<HashMap<FieldName, u32>>>,
}

/// How many fields are few.
const FEW: usize = 8;

impl Model for Class {
    ghost use Rattle.record_classes.specs.Classes.{Class as ClassView};

    ghost Value = { ClassView };

    ghost use Rattle.record_classes.specs.Held.{FieldPositions};

    ghost view = { λ c. record { name = c.name; fields = c.fields.items } };

    ghost invariant = { λ c. FieldPositions c.fields.items c.positions };
}

impl Class {
    /// A class with this name and these fields.
    pub(crate) fn new(name: Name, fields: Vec<(Name, SimpleType)>) -> Result<Class, AllocError>
        requires { length fields.items < 4294967295 }
        ensures { IfOk result (λ class. class ≡ record { name = name; fields = fields.items }) }
    {
        let positions = if fields.len() <= FEW {
            None
        } else {
            Some(Box::new(*fields.allocator(), positions_of(&fields)?)?)
        };
        Ok(Class {
            name,
            fields,
            positions,
        })
    }

    /// The same class, held anew.
    pub(crate) fn copied(&self) -> Result<Class, AllocError>
        ensures { IfOk result (λ class. class ≡ self.now) }
    {
        Class::new(self.name, self.fields.clone()?)
    }

    /// Its name.
    pub(crate) fn name(&self) -> &Name
        ensures { result.now ≡ self.now.name }
    {
        &self.name
    }

    /// Its fields, each with its type.
    pub(crate) fn fields(&self) -> &[(Name, SimpleType)]
        ensures { result.now ≡ self.now.fields }
    {
        self.fields.as_slice()
    }

    /// Where among the fields the first one of a name stands.
    pub(crate) fn find(&self, field: &Name) -> Option<u32>
        ensures { result ≡ position_of self.now.fields field.now }
    {
        match &self.positions {
            Some(positions) => positions.get(&FieldName::new(field)).copied(),
            None => position_among(&self.fields, field),
        }
    }
}

/// Where among these fields each name stands first.
fn positions_of(fields: &Vec<(Name, SimpleType)>) -> Result<HashMap<FieldName, u32>, AllocError>
    requires { length fields.now.items < 4294967295 }
    ensures { IfOk result (λ positions. Positions fields.now.items positions) }
{
    let mut positions = HashMap::with_capacity(*fields.allocator(), fields.len())?;
    for (position, field) in fields.iter().enumerate() {
        positions
            .entry(FieldName::new(&field.0))?
            .or_insert(position as u32);
    }
    Ok(positions)
}

/// Where among few fields the first one of a name stands.
fn position_among(fields: &[(Name, SimpleType)], field: &Name) -> Option<u32>
    requires { length fields.now ≤ 8 }
    ensures { result ≡ position_of fields.now field.now }
{
    for (position, (name, _)) in fields.iter().enumerate() {
        if *name == *field {
            return Some(position as u32);
        }
    }
    None
}
