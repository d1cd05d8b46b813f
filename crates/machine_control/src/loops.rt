ghost use Rattle.std.specs.Prelude.{◌≡◌, ◌+◌, ◌<◌, ◌≤◌, ◌-◌, ◌++◌, [], ◌∷◌, true, false, pos, length, take, Ok, Some, IsSome, IfSome};
ghost use Rattle.cell_store.specs.declared.entries.Entry.TheVariants as entry;
ghost use Rattle.program_meaning.specs.Copying.{has_turn};
ghost use Rattle.stack_code.specs.declared.instructions.Instr.TheVariants as instr;
ghost use Rattle.stack_code.specs.CodeView.{statement_view};
ghost use Rattle.stack_code.specs.Table.{turn_or_exit};
ghost use Rattle.machine_rows.specs.Names as named;
ghost use Rattle.machine_rows.specs.Seen.{Seen, Stands, Comes, machine_of, row_of, IsClear};
ghost use Rattle.machine_rows.specs.Given.{IsGiven};
ghost use Rattle.machine_rows.specs.Rows.{Goes};
ghost use Rattle.machine_control.specs.Counting as counting;

use cell_store::{Entry, Store, Word};
use machine_rows::{Given, Halt, Held, Next, State, enter, entry_out, go_to, start_out, tick};
use stack_code::Code;
use value_ops::{Fault, Place};

/// The control value, the step and the limit of a FOR.
#[derive(Clone, Copy)]
struct Counting {
    control: i32,
    step: i32,
    limit: i32,
}

/// A turn of WHILE more where what is held is true: a step, and it goes back. L1.
#[inline(always)]
pub fn again(state: &mut State, given: &Given, target: u32, pc: u32, held: Held) -> Next
    ghost seen: { Seen }
    requires stands { Stands seen state.old }
    requires given { IsGiven seen given.now }
    requires pc { seen.pc ≡ pc }
    requires here { seen.pc < length seen.code.instructions }
    requires clear { IsClear (row_of seen 0 (instr.Again target) (machine_of seen state.old held)) }
    ensures { Goes seen state.new held result (row_of seen 0 (instr.Again target) (machine_of seen state.old held)) }
{
    if machine_rows::truth(held) {
        match tick(state, given.steps) {
            Ok(()) => go_to(target, held),
            Err(halt) => Next::Halted(halt),
        }
    } else {
        go_to(pc + 1, Held::Nothing)
    }
}

/// The integer that lies so many cells below the top.
#[inline(always)]
#[tactic(auto, using(machine_rows::proofs::Narrow::integer_word))]
fn integer_below(store: &Store, below: u32) -> i32
    requires { IsSome (counting.integer_below below store.now) }
    ensures { counting.integer_below below store.now ≡ Some result }
{
    match store.cell(store.live().saturating_sub(below)) {
        Word::Integer(number) => number,
        _ => unreachable!(),
    }
}

/// What a FOR counts with.
#[inline(always)]
fn counts_with(store: &Store) -> Counting
    requires control { IsSome (counting.integer_below 3 store.now) }
    requires step { IsSome (counting.integer_below 2 store.now) }
    requires limit { IsSome (counting.integer_below 1 store.now) }
    ensures control { counting.integer_below 3 store.now ≡ Some result.control }
    ensures step { counting.integer_below 2 store.now ≡ Some result.step }
    ensures limit { counting.integer_below 1 store.now ≡ Some result.limit }
{
    Counting {
        control: integer_below(store, 3),
        step: integer_below(store, 2),
        limit: integer_below(store, 1),
    }
}

/// Whether there is a turn with a control value.
#[inline(always)]
fn has_turn(control: i64, counting: Counting) -> bool
    ensures { result ≡ has_turn control counting.step counting.limit }
{
    if counting.step >= 0 {
        control <= i64::from(counting.limit)
    } else {
        i64::from(counting.limit) <= control
    }
}

/// A turn with a control value: a step, and it goes on at the turn. L1.
#[inline(always)]
fn take_turn(state: &mut State, given: &Given, control: i32, target: u32, held: Held) -> Next
    ghost seen: { Seen }
    requires stands { Stands seen state.old }
    requires given { IsGiven seen given.now }
    requires cells { 0 < length state.old.store.cells }
    ensures { Goes seen state.new held result (turn_or_exit seen.setting target 0 true control (machine_of seen state.old held)) }
{
    match tick(state, given.steps) {
        Ok(()) => {
            let cell = state.store.live().saturating_sub(3);
            state.store.set_cell(cell, Word::Integer(control));
            go_to(target, held)
        }
        Err(halt) => Next::Halted(halt),
    }
}

/// The cells of a FOR are given back, and it goes on behind it.
#[inline(always)]
fn leave_loop(state: &mut State, exit: u32) -> Next
    ghost seen: { Seen }
    requires stands { Stands seen state.old }
    requires cells { 3 ≤ length state.old.store.cells }
    ensures { (before : Held) → Goes seen state.new before result (turn_or_exit seen.setting 0 exit false (pos 0) (machine_of seen state.old before)) }
{
    let below = state.store.live() - 3;
    state.store.cut_to(below);
    go_to(exit, Held::Nothing)
}

/// The first turn of FOR, or it goes on at the exit. F14, L1.
pub fn first_turn(state: &mut State, given: &Given, exit: u32, pc: u32, held: Held) -> Next
    ghost seen: { Seen }
    requires stands { Stands seen state.old }
    requires given { IsGiven seen given.now }
    requires pc { seen.pc ≡ pc }
    requires here { seen.pc < length seen.code.instructions }
    requires clear { IsClear (row_of seen 0 (instr.FirstTurn exit) (machine_of seen state.old held)) }
    ensures { Goes seen state.new held result (row_of seen 0 (instr.FirstTurn exit) (machine_of seen state.old held)) }
{
    let counting = counts_with(&state.store);
    if counting.step == 0 {
        return Next::Halted(Halt::Fault(Fault::StepZero));
    }
    if has_turn(i64::from(counting.control), counting) {
        take_turn(state, given, counting.control, pc + 1, held)
    } else {
        leave_loop(state, exit)
    }
}

/// The next turn of FOR, or it goes on behind. L1.
#[inline(always)]
pub fn next_turn(
    state: &mut State,
    given: &Given,
    target: u32,
    position: u32,
    pc: u32,
    held: Held,
) -> Next
    ghost seen: { Seen }
    requires stands { Stands seen state.old }
    requires given { IsGiven seen given.now }
    requires pc { seen.pc ≡ pc }
    requires here { seen.pc < length seen.code.instructions }
    requires clear { IsClear (row_of seen 0 (instr.NextTurn target position) (machine_of seen state.old held)) }
    ensures { Goes seen state.new held result (row_of seen 0 (instr.NextTurn target position) (machine_of seen state.old held)) }
{
    cut_to_position(state, position);
    let counting = counts_with(&state.store);
    let control = i64::from(counting.control) + i64::from(counting.step);
    if has_turn(control, counting) {
        take_turn(state, given, control as i32, target, held)
    } else {
        leave_loop(state, pc + 1)
    }
}

/// The entries from a position of the text that runs on are given back.
#[inline(always)]
pub(crate) fn cut_to_position(state: &mut State, position: u32)
    requires { IsSome (named.start_out state.old.store 0) }
    ensures { IfSome (named.start_out state.old.store 0) (λ start.
        state.new ≡ record state.old { store = record state.old.store { entries = take (start + position) state.old.store.entries } }) }
{
    let start = start_out(&state.store, 0);
    let count = state.store.entry_count();
    if position >= count || start >= count - position {
        return;
    }
    state.store.cut_entries(start + position);
}

/// The place of a statement; one that no statement has stands for none.
fn statement_place(code: &Code, at: u32) -> Place
    ensures { result ≡ statement_view code.now.given at }
{
    if (at as usize) < code.statement_count() {
        code.statement_place(at)
    } else {
        Place { card: 0, column: 0 }
    }
}

/// A turn's mark and its control name, whose cell lies so far below the top.
#[inline(always)]
fn enter_turn(state: &mut State, place: Place, back: u32, name: u32, below: u32)
    requires { length state.old.store.entries + 1 < state.old.store.entry_room }
    ensures few { length state.old.store.cells ≤ 32768 }
    ensures entered { state.new ≡ record state.old {
      store = record state.old.store {
        entries = (state.old.store.entries
            ++ entry.Turn place back ∷ []) ++ entry.Name name (length state.old.store.cells - below) ∷ [];
      };
    } }
{
    let cell = state.store.live().saturating_sub(below);
    enter(state, Entry::Turn { place, back });
    enter(state, Entry::Name { name, cell });
}

/// A turn's mark and its control name.
#[inline(always)]
pub fn turn(state: &mut State, given: &Given, at: u32, name: u32)
    ghost was: { Seen × Held }
    requires stands { Stands was.0 state.old }
    requires given { IsGiven was.0 given.now }
    requires name { name < length was.0.code.given.names }
    requires clear { IsClear (row_of was.0 at (instr.Turn name) (machine_of was.0 state.old was.1)) }
    ensures { Comes was.0 state.new was.1 (Ok was.1) (row_of was.0 at (instr.Turn name) (machine_of was.0 state.old was.1)) }
{
    enter_turn(state, statement_place(given.code, at), 0, name, 3);
}

/// A turn of FOR with the value that is held. L3, L1.
pub fn list_turn(
    state: &mut State,
    given: &Given,
    at: u32,
    target: u32,
    name: u32,
    pc: u32,
    held: Held,
) -> Next
    ghost seen: { Seen }
    requires stands { Stands seen state.old }
    requires given { IsGiven seen given.now }
    requires pc { seen.pc ≡ pc }
    requires here { seen.pc < length seen.code.instructions }
    requires name { name < length seen.code.given.names }
    requires clear { IsClear (row_of seen at (instr.ListTurn target name) (machine_of seen state.old held)) }
    ensures { Goes seen state.new held result (row_of seen at (instr.ListTurn target name) (machine_of seen state.old held)) }
{
    let Held::Integer(number) = held else {
        unreachable!()
    };
    if let Err(limit) = state.store.push(Word::Integer(number)) {
        return Next::Halted(Halt::Limit(limit));
    }
    if let Err(halt) = tick(state, given.steps) {
        return Next::Halted(halt);
    }
    enter_turn(state, statement_place(given.code, at), pc + 1, name, 1);
    go_to(target, held)
}

/// The end of such a turn: its entries and its cell are given back, and it goes on where its mark says.
pub fn end_turn(state: &mut State, position: u32, held: Held) -> Next
    ghost seen: { Seen }
    requires stands { Stands seen state.old }
    requires clear { IsClear (row_of seen 0 (instr.EndTurn position) (machine_of seen state.old held)) }
    ensures { Goes seen state.new held result (row_of seen 0 (instr.EndTurn position) (machine_of seen state.old held)) }
{
    let Entry::Turn { back, .. } = entry_out(&state.store, 0, position) else {
        unreachable!()
    };
    cut_to_position(state, position);
    let below = state.store.live() - 1;
    state.store.cut_to(below);
    go_to(back, held)
}
