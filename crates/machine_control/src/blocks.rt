ghost use Rattle.std.specs.Prelude.{◌≡◌, ◌<◌, length, Ok};
ghost use Rattle.stack_code.specs.declared.instructions.Instr.TheVariants as instr;
ghost use Rattle.machine_rows.specs.Seen.{Seen, Stands, Comes, machine_of, row_of, IsClear};

use crate::loops::cut_to_position;
use cell_store::{Entry, Mark, Word};
use machine_rows::{Halt, Held, State, enter, entry_out};
use value_ops::Place;

/// A block's mark.
#[inline(always)]
pub fn enter_block(state: &mut State, place: Place)
    ghost was: { Seen × Held }
    requires stands { Stands was.0 state.old }
    requires clear { IsClear (row_of was.0 0 (instr.EnterBlock place) (machine_of was.0 state.old was.1)) }
    ensures { Comes was.0 state.new was.1 (Ok was.1) (row_of was.0 0 (instr.EnterBlock place) (machine_of was.0 state.old was.1)) }
{
    let cells = state.store.live();
    enter(state, Entry::Block { place, cells });
}

/// A variable of a block: a cell without a value, and its name. L3.
#[inline(always)]
pub fn declare(state: &mut State, name: u32, held: Held) -> Result<Held, Halt>
    ghost seen: { Seen }
    requires stands { Stands seen state.old }
    requires name { name < length seen.code.given.names }
    requires clear { IsClear (row_of seen 0 (instr.Declare name) (machine_of seen state.old held)) }
    ensures { Comes seen state.new held result (row_of seen 0 (instr.Declare name) (machine_of seen state.old held)) }
{
    let cell = state.store.live();
    match state.store.push(Word::Nothing) {
        Ok(()) => {
            enter(state, Entry::Name { name, cell });
            Ok(held)
        }
        Err(limit) => Err(Halt::Limit(limit)),
    }
}

/// The mark to which jumps to a block's labels cut.
#[inline(always)]
pub fn declared(state: &mut State)
    ghost was: { Seen × Held }
    requires stands { Stands was.0 state.old }
    requires clear { IsClear (row_of was.0 0 instr.Declared (machine_of was.0 state.old was.1)) }
    ensures { Comes was.0 state.new was.1 (Ok was.1) (row_of was.0 0 instr.Declared (machine_of was.0 state.old was.1)) }
{
    let mark = Mark {
        cells: state.store.live(),
        depth: state.store.depth(),
        frames: state.store.frame_count(),
    };
    enter(state, Entry::Declared(mark));
}

/// The end of a WRITE in which a width is set: the entry of its widths is given back, and nothing is held.
pub fn close_widths(state: &mut State, position: u32) -> Held
    ghost was: { Seen × Held }
    requires stands { Stands was.0 state.old }
    requires clear { IsClear (row_of was.0 0 (instr.CloseWidths position) (machine_of was.0 state.old was.1)) }
    ensures { Comes was.0 state.new was.1 (Ok result) (row_of was.0 0 (instr.CloseWidths position) (machine_of was.0 state.old was.1)) }
{
    cut_to_position(state, position);
    Held::Nothing
}

/// The end of a block: all its cells and entries are given back.
#[inline(always)]
pub fn leave_block(state: &mut State, position: u32)
    ghost was: { Seen × Held }
    requires stands { Stands was.0 state.old }
    requires clear { IsClear (row_of was.0 0 (instr.LeaveBlock position) (machine_of was.0 state.old was.1)) }
    ensures { Comes was.0 state.new was.1 (Ok was.1) (row_of was.0 0 (instr.LeaveBlock position) (machine_of was.0 state.old was.1)) }
{
    let Entry::Block { cells, .. } = entry_out(&state.store, 0, position) else {
        unreachable!()
    };
    state.store.cut_to(cells);
    cut_to_position(state, position);
}
