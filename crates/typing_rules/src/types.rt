ghost use Rattle.std.specs.Prelude.{◌≡◌, IfOk};
ghost use Rattle.std.specs.Option.{option_map};
ghost use Rattle.algolw_typing.specs.Types.{fits, is_same, join};
ghost use Rattle.typing_rules.specs.View.{value_type};

use crate::class_set::ClassSet;
use bumpalo::Bump;
use std::alloc::AllocError;

/// A type of values.
#[derive(Clone, Copy)]
pub enum ValueType<'a> {
    /// INTEGER.
    Integer,
    /// LOGICAL.
    Logical,
    /// BITS.
    Bits,
    /// STRING of this length.
    Str(u32),
    /// REFERENCE to these classes. That of `NULL` is to none.
    Reference(ClassSet<'a>),
}

/// What a phrase gives.
#[derive(Clone, Copy)]
pub enum PhraseType<'a> {
    /// Nothing: it is a statement.
    Statement,
    /// A value of a type.
    Value(ValueType<'a>),
}

impl<'a> ValueType<'a> {
    /// Whether a value of this type fits another type.
    pub fn fits(self, other: ValueType<'a>) -> bool
        ensures { result ≡ fits (value_type self.entry) (value_type other.entry) }
    {
        match (self, other) {
            (ValueType::Integer, ValueType::Integer)
            | (ValueType::Logical, ValueType::Logical)
            | (ValueType::Bits, ValueType::Bits) => true,
            (ValueType::Str(length), ValueType::Str(most)) => length <= most,
            (ValueType::Reference(classes), ValueType::Reference(others)) => {
                classes.is_empty() || classes.shares_one(others)
            }
            _ => false,
        }
    }

    /// Whether the two are the same type.
    pub fn is_same(self, other: ValueType<'a>) -> bool
        ensures { result ≡ is_same (value_type self.entry) (value_type other.entry) }
    {
        match (self, other) {
            (ValueType::Integer, ValueType::Integer)
            | (ValueType::Logical, ValueType::Logical)
            | (ValueType::Bits, ValueType::Bits) => true,
            (ValueType::Str(length), ValueType::Str(other_length)) => length == other_length,
            (ValueType::Reference(classes), ValueType::Reference(others)) => {
                classes.is_same_set(others)
            }
            _ => false,
        }
    }

    /// The type to which the two join, where they do. A union of classes is put into the arena.
    pub fn join(
        self,
        arena: &'a Bump,
        other: ValueType<'a>,
    ) -> Result<Option<ValueType<'a>>, AllocError>
        ensures { IfOk result (λ t. option_map value_type t ≡ join (value_type self.entry) (value_type other.entry)) }
    {
        match (self, other) {
            (ValueType::Integer, ValueType::Integer)
            | (ValueType::Logical, ValueType::Logical)
            | (ValueType::Bits, ValueType::Bits) => Ok(Some(self)),
            (ValueType::Str(length), ValueType::Str(other_length)) => {
                Ok(Some(ValueType::Str(length.max(other_length))))
            }
            (ValueType::Reference(classes), ValueType::Reference(others)) => {
                Ok(Some(ValueType::Reference(classes.union(arena, others)?)))
            }
            _ => Ok(None),
        }
    }
}
