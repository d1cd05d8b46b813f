ghost use Rattle.std.specs.Prelude.{◌≡◌, ◌≤◌, ◌<◌, ◌+◌, ◌++◌, ℕ, [], None, Some, IfOk, IfSome, length, replicate, take, drop, slice_index_or, slice_set, vec_capacity};

use std::alloc::{AllocError, Global};
use std::marker::Model;
use std::mem::size_of;
use value_ops::{RecordId, Text, Value};

/// What a field holds, but for the characters of a string, which stand beside it.
#[derive(Clone, Copy)]
pub(crate) enum Slot {
    /// Nothing: it was never set.
    Undefined,
    /// An INTEGER.
    Integer(i32),
    /// A LOGICAL.
    Logical(bool),
    /// 32 BITS, as a number.
    Bits(u32),
    /// A STRING.
    Str,
    /// A record, or NULL.
    Reference(Option<RecordId>),
}

const _: () = prove!(size_of::<Slot>() == 8);

/// Fields in line. A slot takes 8 bytes, so that what isn't a string is read and set in one small piece.
#[derive(Drop)]
pub(crate) struct Fields {
    slots: Vec<Slot>,
    /// The characters of the field at the same place, where it holds a string. They go as far as a string was ever set, and
    /// there is room for those of all fields: memory that no string was written to isn't asked of the system.
    texts: Vec<Text>,
}

impl Model for Fields {
    ghost use Rattle.std.specs.Prelude.{◌≤◌, List, Option, length, vec_capacity};
    ghost use Rattle.value_ops.specs.declared.values.Value.{Value as Held};
    ghost use Rattle.record_store.specs.Slots.{values_of};

    ghost Value = { List (Option Held) };

    ghost view = { λ f. values_of f.slots.items f.texts.items };

    ghost invariant = { λ f. length f.slots.items ≤ vec_capacity f.texts };
}

impl Fields {
    /// So many fields, which are undefined.
    pub(crate) fn new(alloc: Global, count: usize) -> Result<Fields, AllocError>
        ensures { IfOk result (λ fields. fields ≡ replicate count None) }
    {
        let mut texts = Vec::new(alloc);
        texts.reserve_exact(count)?;
        Ok(Fields {
            slots: vec![in alloc; Slot::Undefined; count]?,
            texts,
        })
    }

    /// What the field at a place holds.
    #[inline]
    #[tactic(auto, using(crate::proofs::Values::within_slots))]
    pub(crate) fn at(&self, place: usize) -> Option<Value>
        requires { place < length self.now }
        ensures { result ≡ slice_index_or self.now place None }
    {
        match self.slots[place] {
            Slot::Undefined => None,
            Slot::Integer(number) => Some(Value::Integer(number)),
            Slot::Logical(truth) => Some(Value::Logical(truth)),
            Slot::Bits(bits) => Some(Value::Bits(bits)),
            Slot::Str => Some(Value::Str(text_at(&self.texts, place))),
            Slot::Reference(record) => Some(Value::Reference(record)),
        }
    }

    /// Sets the field at a place.
    #[inline]
    #[tactic(auto, using(crate::proofs::Values::within_slots))]
    pub(crate) fn set(&mut self, place: usize, value: Value)
        requires { place < length self.old }
        ensures { self.new ≡ slice_set self.old place (Some value) }
    {
        let slot = match value {
            Value::Integer(number) => Slot::Integer(number),
            Value::Logical(truth) => Slot::Logical(truth),
            Value::Bits(bits) => Slot::Bits(bits),
            Value::Str(text) => {
                put_text(&mut self.texts, place, text);
                Slot::Str
            }
            Value::Reference(record) => Slot::Reference(record),
        };
        self.slots[place] = slot;
    }

    /// The INTEGER that the field at a place holds, where it holds one.
    #[inline]
    #[tactic(auto, using(crate::proofs::Values::within_slots))]
    pub(crate) fn integer_at(&self, place: usize) -> Option<i32>
        requires { place < length self.now }
        ensures { IfSome result (λ n. slice_index_or self.now place None ≡ Some (Value.Integer n)) }
    {
        match self.slots[place] {
            Slot::Integer(number) => Some(number),
            _ => None,
        }
    }

    /// The reference that the field at a place holds, where it holds one.
    #[inline]
    #[tactic(auto, using(crate::proofs::Values::within_slots))]
    pub(crate) fn reference_at(&self, place: usize) -> Option<Option<RecordId>>
        requires { place < length self.now }
        ensures { IfSome result (λ r. slice_index_or self.now place None ≡ Some (Value.Reference r)) }
    {
        match self.slots[place] {
            Slot::Reference(record) => Some(record),
            _ => None,
        }
    }

    /// Sets the field at a place to an INTEGER.
    #[inline]
    #[tactic(auto, using(crate::proofs::Values::within_slots))]
    pub(crate) fn set_integer(&mut self, place: usize, number: i32)
        requires { place < length self.old }
        ensures { self.new ≡ slice_set self.old place (Some (Value.Integer number)) }
    {
        self.slots[place] = Slot::Integer(number);
    }

    /// Sets the field at a place to a record, or NULL.
    #[inline]
    #[tactic(auto, using(crate::proofs::Values::within_slots))]
    pub(crate) fn set_reference(&mut self, place: usize, reference: Option<RecordId>)
        requires { place < length self.old }
        ensures { self.new ≡ slice_set self.old place (Some (Value.Reference reference)) }
    {
        self.slots[place] = Slot::Reference(reference);
    }

    /// Makes so many fields from a place on undefined.
    #[tactic(auto, using(crate::proofs::Values::length_values_of))]
    pub(crate) fn undefine(&mut self, first: usize, count: usize)
        requires { first + count ≤ length self.old }
        ensures { self.new ≡ take first self.old ++ replicate count None
            ++ drop (first + count) self.old }
    {
        self.slots[first..first + count].fill(Slot::Undefined);
    }
}

/// The text at a place; no characters where texts don't go so far.
#[inline]
fn text_at(texts: &[Text], place: usize) -> Text
    ensures { result ≡ slice_index_or texts.now place [] }
{
    match texts.get(place) {
        Some(text) => *text,
        None => Text::new(),
    }
}

/// Puts a text at a place. Where texts don't go so far, there are texts without characters up to it.
fn put_text(texts: &mut Vec<Text>, place: usize, text: Text)
    requires { place < vec_capacity texts.old }
    ensures put { (more : ℕ) × (texts.new.items
        ≡ slice_set (texts.old.items ++ replicate more []) place text) × (place < length texts.new.items) }
    ensures room { vec_capacity texts.new ≡ vec_capacity texts.old }
{
    while texts.len() <= place {
        texts.push_reserved(Text::new());
    }
    texts[place] = text;
}
