ghost use Rattle.std.specs.Prelude.{◌≡◌, ◌+◌, ◌<◌, ◌≤◌, ℕ, Some, IsSome, length, take, drop, slice_get, slice_set};
ghost use Rattle.record_store.specs.Records.{new_record, record_at};
ghost use Rattle.machine_rows.specs.Contents.{value_in, cell_values};
ghost use Rattle.stack_code.specs.declared.instructions.Instr.TheVariants as instr;
ghost use Rattle.machine_rows.specs.Seen.{Seen, Stands, Comes, machine_of, row_of, IsClear};

use crate::held::{Halt, Held, reference};
use crate::names::wanted;
use crate::state::State;
use crate::variables::{variable_in_field, word_value};
use cell_store::{Store, Wide};
use record_store::Records;
use stack_code::Mode;
use value_ops::{ClassId, RecordId, Value};

/// The value or place of a field of the record that is held. F7, F8, F6.
#[inline(always)]
pub fn field(
    state: &mut State,
    mode: Mode,
    class: ClassId,
    position: u32,
    held: Held,
) -> Result<Held, Halt>
    ghost seen: { Seen }
    requires stands { Stands seen state.old }
    requires class { class.0 < length seen.code.given.class_places }
    requires clear { IsClear (row_of seen 0 (instr.Field mode class position) (machine_of seen state.old held)) }
    ensures { Comes seen state.new held result (row_of seen 0 (instr.Field mode class position) (machine_of seen state.old held)) }
{
    let purpose = wanted(&state.store, mode);
    let record = reference(held);
    match state.records.place_of(record, class, position) {
        Ok(place) => variable_in_field(state, purpose, place),
        Err(fault) => Err(Halt::Fault(fault)),
    }
}

/// A record of a class; so many of the newest cells are its fields, and are given back. L5.
pub fn make_record(state: &mut State, class: ClassId, count: u32) -> Result<Held, Halt>
    ghost was: { Seen × Held }
    requires stands { Stands was.0 state.old }
    requires class { class.0 < length was.0.code.given.class_places }
    requires clear { IsClear (row_of was.0 0 (instr.MakeRecord class count) (machine_of was.0 state.old was.1)) }
    ensures { Comes was.0 state.new was.1 result (row_of was.0 0 (instr.MakeRecord class count) (machine_of was.0 state.old was.1)) }
{
    let first = state.store.live() - count;
    match state.records.make(class, count) {
        Ok(id) => {
            fill(&mut state.records, id, class, &state.store, first, count);
            state.store.cut_to(first);
            Ok(Held::reference(Some(id)))
        }
        Err(limit) => {
            state.store.cut_to(first);
            Err(Halt::Limit(limit))
        }
    }
}

/// The fields of a new record get the values in so many cells, from one on.
fn fill(records: &mut Records, id: RecordId, class: ClassId, store: &Store, first: u32, count: u32)
    requires there { id.0 < length records.old }
    requires fresh { record_at records.old id ≡ new_record class count }
    requires most { first + count ≤ 65536 }
    requires within { first + count ≤ length store.now.cells }
    requires values { (k : ℕ) → k < count → IsSome (value_in (slice_get store.now.cells (first + k))) }
    ensures { records.new ≡ slice_set records.old id.0 (record { class = class; fields = cell_values (take count (drop first store.now.cells)) }) }
{
    for position in 0..count {
        let value = value_at(store, first + position);
        match records.set_field(Some(id), class, position, value) {
            Ok(()) => {}
            Err(_) => unreachable!(),
        }
    }
}

/// A record of a class with so many fields that have no values. L5.
pub fn make_record_alone(state: &mut State, class: ClassId, count: u32) -> Result<Held, Halt>
    ghost was: { Seen × Held }
    requires stands { Stands was.0 state.old }
    requires class { class.0 < length was.0.code.given.class_places }
    requires clear { IsClear (row_of was.0 0 (instr.MakeRecordAlone class count) (machine_of was.0 state.old was.1)) }
    ensures { Comes was.0 state.new was.1 result (row_of was.0 0 (instr.MakeRecordAlone class count) (machine_of was.0 state.old was.1)) }
{
    match state.records.make(class, count) {
        Ok(id) => Ok(Held::reference(Some(id))),
        Err(limit) => Err(Halt::Limit(limit)),
    }
}

/// The value in a cell.
#[tactic(auto, using(crate::proofs::Narrow::valued_word, crate::proofs::Narrow::is_wide_word))]
fn value_at(store: &Store, cell: u32) -> Value
    requires { IsSome (value_in (slice_get store.now.cells cell)) }
    ensures { value_in (slice_get store.now.cells cell) ≡ Some result }
{
    let word = store.cell(cell);
    if !word.is_wide() {
        return word_value(word);
    }
    match store.wide_cell(cell) {
        Some(Wide::Str(text)) => Value::Str(*text),
        _ => unreachable!(),
    }
}
