ghost use Rattle.std.specs.Prelude.{◌≡◌, IsSome, IfSome, Some, Ok};
ghost use Rattle.stack_code.specs.declared.instructions.Instr.TheVariants as instr;
ghost use Rattle.machine_rows.specs.Widths as widths;
ghost use Rattle.machine_rows.specs.Seen.{Seen, Stands, Comes, machine_of, row_of, IsClear};

use crate::field_values::{standard_field, standard_value};
use crate::held::{Halt, Held, integer};
use crate::names::{entry_out, start_out, wanted};
use crate::next::enter;
use crate::state::State;
use crate::variables::hold_value;
use algolw_tree::Width;
use cell_store::{Entry, Purpose, Store, WidthsSet};
use output_editing::Widths;
use stack_code::Mode;
use value_ops::{Fault, Value};

/// The value or place of a standard variable.
pub fn standard(state: &mut State, mode: Mode, width: Width) -> Held
    ghost was: { Seen × Held }
    requires stands { Stands was.0 state.old }
    requires clear { IsClear (row_of was.0 0 (instr.Standard mode width) (machine_of was.0 state.old was.1)) }
    ensures { Comes was.0 state.new was.1 (Ok result) (row_of was.0 0 (instr.Standard mode width) (machine_of was.0 state.old was.1)) }
{
    match wanted(&state.store, mode) {
        Purpose::Place => Held::Field(standard_field(width)),
        Purpose::Value => {
            let value = standard_value(&state.standard, width);
            hold_value(state, value)
        }
    }
}

/// The first width that a WRITE sets.
fn only(width: Width, number: i32) -> WidthsSet
    ensures { result ≡ widths.only width number }
{
    match width {
        Width::Columns => WidthsSet::Columns(number),
        Width::Blanks => WidthsSet::Blanks(number),
    }
}

/// What a WRITE has set once it sets a width more, or anew.
fn with_width(set: WidthsSet, width: Width, number: i32) -> WidthsSet
    ensures { result ≡ widths.with_width width number set }
{
    match width {
        Width::Columns => match set {
            WidthsSet::Columns(_) => WidthsSet::Columns(number),
            WidthsSet::Blanks(blanks) | WidthsSet::Both { blanks, .. } => WidthsSet::Both {
                columns: number,
                blanks,
            },
        },
        Width::Blanks => match set {
            WidthsSet::Blanks(_) => WidthsSet::Blanks(number),
            WidthsSet::Columns(columns) | WidthsSet::Both { columns, .. } => WidthsSet::Both {
                columns,
                blanks: number,
            },
        },
    }
}

/// A width is set to the integer that is held, in the entry at a position of this text or in a new one.
pub fn set_width(state: &mut State, width: Width, position: Option<u32>, held: Held)
    ghost seen: { Seen }
    requires stands { Stands seen state.old }
    requires clear { IsClear (row_of seen 0 (instr.SetWidth width position) (machine_of seen state.old held)) }
    ensures { Comes seen state.new held (Ok held) (row_of seen 0 (instr.SetWidth width position) (machine_of seen state.old held)) }
{
    let number = integer(held);
    match position {
        None => enter(state, Entry::Widths(only(width, number))),
        Some(position) => {
            let set = widths_at(&state.store, position);
            let at = start_out(&state.store, 0) as usize + position as usize;
            let set = with_width(set, width, number);
            state.store.set_entry(at, Entry::Widths(set));
        }
    }
}

/// The widths in the entry at a position of this text.
fn widths_at(store: &Store, position: u32) -> WidthsSet
    requires { IsSome (widths.widths_at store.now position) }
    ensures { widths.widths_at store.now position ≡ Some result }
{
    match entry_out(store, 0, position) {
        Entry::Widths(set) => set,
        _ => unreachable!(),
    }
}

/// The columns of an INTEGER, where they are set.
fn columns(set: WidthsSet) -> Option<i32>
    ensures { result ≡ widths.columns set }
{
    match set {
        WidthsSet::Columns(columns) | WidthsSet::Both { columns, .. } => Some(columns),
        WidthsSet::Blanks(_) => None,
    }
}

/// The blanks behind a value, where they are set.
fn blanks(set: WidthsSet) -> Option<i32>
    ensures { result ≡ widths.blanks set }
{
    match set {
        WidthsSet::Blanks(blanks) | WidthsSet::Both { blanks, .. } => Some(blanks),
        WidthsSet::Columns(_) => None,
    }
}

/// The widths that a WRITE has set, if any.
fn widths_set(store: &Store, position: Option<u32>) -> (Option<i32>, Option<i32>)
    requires { IsSome (widths.widths_set store.now position) }
    ensures { widths.widths_set store.now position ≡ Some result }
{
    match position {
        None => (None, None),
        Some(position) => {
            let set = widths_at(store, position);
            (columns(set), blanks(set))
        }
    }
}

/// A width: the one that is set, or the variable's value.
fn width_now(set: Option<i32>, variable: &Value) -> i32
    requires { IsSome (widths.width_now set variable.now) }
    ensures { widths.width_now set variable.now ≡ Some result }
{
    match set {
        Some(number) => number,
        None => match variable {
            Value::Integer(number) => *number,
            _ => unreachable!(),
        },
    }
}

/// The columns and blanks by which a value is written now.
pub(crate) fn widths_now(state: &State, position: Option<u32>) -> (i32, i32)
    requires { IsSome (widths.widths_now state.now position) }
    ensures { widths.widths_now state.now position ≡ Some result }
{
    let (columns, blanks) = widths_set(&state.store, position);
    (
        width_now(columns, &state.standard.columns),
        width_now(blanks, &state.standard.blanks),
    )
}

/// The most columns of a line.
const MOST_COLUMNS: u8 = 132;

/// A width from a least one to 132. F17 where it isn't.
fn within(number: i32, least: u8) -> Result<u8, Fault>
    ensures { result ≡ widths.within number least }
{
    let Ok(width) = u8::try_from(number) else {
        return Err(Fault::WidthOutOfRange);
    };
    if width < least || width > MOST_COLUMNS {
        return Err(Fault::WidthOutOfRange);
    }
    Ok(width)
}

/// The columns of a BITS, and of what has no others.
const USUAL_COLUMNS: u8 = 14;

/// By which widths a value is placed: those that it doesn't ask for are any. F17 where it can't be placed so.
pub(crate) fn widths_for(value: &Value, columns: i32, blanks: i32) -> Result<Widths, Fault>
    ensures { result ≡ widths.widths_for value.now columns blanks }
{
    let integer = match value {
        Value::Integer(_) => within(columns, 1)?,
        _ => USUAL_COLUMNS,
    };
    let blanks = match value {
        Value::Integer(_) | Value::Logical(_) | Value::Bits(_) => within(blanks, 0)?,
        Value::Str(_) | Value::Reference(_) => 0,
    };
    Ok(Widths { integer, blanks })
}
