use typing_rules::ValueType;
use value_ops::{Name, Place};

/// A field of a record class.
#[derive(Clone, Copy)]
pub struct Field<'a> {
    /// Its name.
    pub name: Name,
    /// Its type.
    pub field_type: ValueType<'a>,
}

/// A record class.
#[derive(Clone, Copy)]
pub struct FoundClass<'a> {
    /// The place of its declaration.
    pub place: Place,
    /// Its name.
    pub name: Name,
    /// Its fields.
    pub fields: &'a [Field<'a>],
}
