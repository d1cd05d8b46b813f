ghost use Rattle.std.specs.Prelude.{◌≡◌, ◌<◌, ◌+◌, ℕ, [], ◌∷◌, ◌++◌, if◌then◌else◌, Ok, Err, Some, None, IfOk, IfSome, OnErr, length, slice_index_or, slice_set};
ghost use Rattle.record_store.specs.Records.{has_room, new_record, record_at, at_reference, HasField, field_of, with_field, all_fields, first_field, shapes};

use crate::fields::Fields;
use std::alloc::{AllocError, Global};
use std::marker::Model;
use value_ops::{ClassId, Fault, Limit, RecordId, Value};

/// The most records of a run.
const MOST_RECORDS: u16 = 4096;

/// The most fields that they have together.
const MOST_FIELDS: u32 = 16384;

/// Where a record is kept.
#[derive(Clone, Copy)]
pub(crate) struct Head {
    class: ClassId,
    /// Where its fields begin among those of all records.
    first: u32,
    /// How many fields it has.
    count: u32,
}

/// The records that a run has made. Contracts see them as a list, in the order of their making. No call but `new` takes
/// memory.
#[derive(Drop)]
pub struct Records {
    /// Where the records are kept, and room for more.
    heads: Vec<Head>,
    /// How many records there are.
    made: u16,
    /// The fields of all records, each record's behind those of the one before, and room for more.
    fields: Fields,
    /// How many fields the records have.
    taken: u32,
}

impl Model for Records {
    ghost use Rattle.std.specs.Prelude.{List, map, take};
    ghost use Rattle.record_store.specs.Records.{Record};
    ghost use Rattle.record_store.specs.Kept.{Kept, record_of};

    ghost Value = { List Record };

    ghost view = { λ r. map (record_of r.fields) (take r.made r.heads.items) };

    ghost invariant = { λ r. Kept r.heads.items r.made r.fields r.taken };
}

impl Records {
    /// No records, and room for 4,096 with 16,384 fields.
    pub fn new(alloc: Global) -> Result<Records, AllocError>
        ensures { IfOk result (λ records. records ≡ []) }
    {
        let head = Head {
            class: ClassId(0),
            first: 0,
            count: 0,
        };
        Ok(Records {
            heads: vec![in alloc; head; MOST_RECORDS as usize]?,
            made: 0,
            fields: Fields::new(alloc, MOST_FIELDS as usize)?,
            taken: 0,
        })
    }

    /// Gives all records back.
    pub fn clear(&mut self)
        ensures { self.new ≡ [] }
    {
        self.made = 0;
        self.taken = 0;
    }

    /// Makes a record of a class with so many fields, which are undefined. L5 exactly where there are 4,096 records, or
    /// where the fields would be more than 16,384 together; then nothing changes.
    pub fn make(&mut self, class: ClassId, fields: u32) -> Result<RecordId, Limit>
        ensures answer { result
            ≡ (if has_room self.old fields then Ok (record { 0 = length self.old }) else Err Limit.Records) }
        ensures made { IfOk result (λ _. self.new ≡ self.old ++ new_record class fields ∷ []) }
        ensures unchanged { OnErr result (self.new ≡ self.old) }
    {
        if self.made >= MOST_RECORDS || fields > MOST_FIELDS - self.taken {
            return Err(Limit::Records);
        }
        let head = Head {
            class,
            first: self.taken,
            count: fields,
        };
        let id = RecordId(self.made);
        self.heads[usize::from(self.made)] = head;
        self.fields.undefine(self.taken as usize, fields as usize);
        self.made += 1;
        self.taken += fields;
        Ok(id)
    }

    /// How many fields the records have.
    #[inline]
    pub fn field_count(&self) -> u32
        ensures { result ≡ length (all_fields self.now) }
    {
        self.taken
    }

    /// How many records there are.
    #[inline]
    pub fn count(&self) -> u32
        ensures { result ≡ length self.now }
    {
        u32::from(self.made)
    }

    /// The class of a record.
    #[inline]
    pub fn class_of(&self, id: RecordId) -> ClassId
        requires { id.0 < length self.now }
        ensures { result ≡ (record_at self.now id).class }
    {
        self.heads[usize::from(id.0)].class
    }

    /// Where among the fields of all records a field of a record of this class stands. F7 where there is no record, F8
    /// where it is of another class.
    #[inline]
    pub fn place_of(
        &self,
        reference: Option<RecordId>,
        class: ClassId,
        position: u32,
    ) -> Result<u32, Fault>
        requires { HasField self.now reference class position }
        ensures answer { result
            ≡ at_reference self.now reference class (λ id. first_field self.now id + position) }
        ensures within { IfOk result (λ place. place < length (all_fields self.now)) }
        ensures few { IfOk result (λ place. place < 16384) }
    {
        let Some(id) = reference else {
            return Err(Fault::ReferenceNull);
        };
        let head = self.heads[usize::from(id.0)];
        if head.class != class {
            return Err(Fault::WrongRecordClass);
        }
        Ok(head.first + position)
    }

    /// What the field at a place among the fields of all records holds: nothing until it is set.
    #[inline]
    pub fn field_at(&self, place: u32) -> Option<Value>
        requires { place < length (all_fields self.now) }
        ensures { result ≡ slice_index_or (all_fields self.now) place None }
    {
        self.fields.at(place as usize)
    }

    /// The INTEGER that the field at a place among the fields of all records holds, where it holds one.
    #[inline]
    pub fn integer_at(&self, place: u32) -> Option<i32>
        requires { place < length (all_fields self.now) }
        ensures { IfSome result (λ n. slice_index_or (all_fields self.now) place None ≡ Some (Value.Integer n)) }
    {
        self.fields.integer_at(place as usize)
    }

    /// The record, or NULL, that the field at a place among the fields of all records holds, where it holds one.
    #[inline]
    pub fn reference_at(&self, place: u32) -> Option<Option<RecordId>>
        requires { place < length (all_fields self.now) }
        ensures { IfSome result (λ r. slice_index_or (all_fields self.now) place None ≡ Some (Value.Reference r)) }
    {
        self.fields.reference_at(place as usize)
    }

    /// Sets the field at a place among the fields of all records to an INTEGER, and nothing else.
    #[inline]
    pub fn set_integer_at(&mut self, place: u32, number: i32)
        requires { place < length (all_fields self.old) }
        ensures fields { all_fields self.new
            ≡ slice_set (all_fields self.old) place (Some (Value.Integer number)) }
        ensures shapes { shapes self.new ≡ shapes self.old }
    {
        self.fields.set_integer(place as usize, number);
    }

    /// Sets the field at a place among the fields of all records to a record or NULL, and nothing else.
    #[inline]
    pub fn set_reference_at(&mut self, place: u32, reference: Option<RecordId>)
        requires { place < length (all_fields self.old) }
        ensures fields { all_fields self.new
            ≡ slice_set (all_fields self.old) place (Some (Value.Reference reference)) }
        ensures shapes { shapes self.new ≡ shapes self.old }
    {
        self.fields.set_reference(place as usize, reference);
    }

    /// Sets the field at a place among the fields of all records, and nothing else.
    #[inline]
    pub fn set_field_at(&mut self, place: u32, value: Value)
        requires { place < length (all_fields self.old) }
        ensures fields { all_fields self.new
            ≡ slice_set (all_fields self.old) place (Some value) }
        ensures shapes { shapes self.new ≡ shapes self.old }
    {
        self.fields.set(place as usize, value);
    }

    /// What a field of a record of this class holds: nothing until it is set. F7 where there is no record, F8 where it is
    /// of another class.
    #[inline]
    pub fn field(
        &self,
        reference: Option<RecordId>,
        class: ClassId,
        position: u32,
    ) -> Result<Option<Value>, Fault>
        requires { HasField self.now reference class position }
        ensures { result ≡ at_reference self.now reference class (field_of self.now position) }
    {
        let place = self.place_of(reference, class, position)?;
        Ok(self.field_at(place))
    }

    /// Sets a field of a record of this class. F7 where there is no record, F8 where it is of another class; then nothing
    /// changes.
    #[inline]
    pub fn set_field(
        &mut self,
        reference: Option<RecordId>,
        class: ClassId,
        position: u32,
        value: Value,
    ) -> Result<(), Fault>
        requires { HasField self.old reference class position }
        ensures answer { result ≡ at_reference self.old reference class (λ _. tt) }
        ensures set { IfOk result (λ _. IfSome reference (λ id.
            self.new ≡ with_field self.old id position value)) }
        ensures unchanged { OnErr result (self.new ≡ self.old) }
    {
        let place = self.place_of(reference, class, position)?;
        self.set_field_at(place, value);
        Ok(())
    }
}
