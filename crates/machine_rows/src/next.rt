ghost use Rattle.std.specs.Prelude.{◌≡◌, ◌<◌, ◌++◌, ◌∷◌, [], length};
ghost use Rattle.machine_rows.specs.Rows.{onwards};

use crate::held::{Halt, Held};
use crate::state::State;
use cell_store::Entry;
use stack_code::Code;
use value_ops::Card;

/// The instruction that is next, and what is held.
#[derive(Clone, Copy)]
pub struct Registers {
    /// The number of the instruction.
    pub pc: u32,
    /// What is held.
    pub held: Held,
}

/// What comes after a row.
#[derive(Clone, Copy)]
pub enum Next {
    /// It goes on.
    On(Registers),
    /// The program ended.
    Ended,
    /// It stops.
    Halted(Halt),
}

/// What a run is given.
#[derive(Clone, Copy)]
pub struct Given<'a> {
    /// The code.
    pub code: &'a Code,
    /// The data.
    pub cards: &'a [Card],
    /// The most steps.
    pub steps: u32,
}

/// It goes on at an instruction.
#[inline(always)]
pub fn go_to(pc: u32, held: Held) -> Next
    ensures { result ≡ Next.On (record { pc = pc; held = held }) }
{
    Next::On(Registers { pc, held })
}

/// It goes on at the next instruction with what is given, or stops.
#[inline(always)]
pub fn onward(pc: u32, answer: Result<Held, Halt>) -> Next
    requires { pc < 4294967295 }
    ensures { result ≡ onwards pc answer }
{
    match answer {
        Ok(held) => go_to(pc + 1, held),
        Err(halt) => Next::Halted(halt),
    }
}

/// An entry more, for which there is room.
#[inline(always)]
pub fn enter(state: &mut State, entry: Entry)
    requires { length state.old.store.entries < state.old.store.entry_room }
    ensures { state.new ≡ record state.old { store = record state.old.store { entries = state.old.store.entries ++ entry ∷ [] } } }
{
    match state.store.push_entry(entry) {
        Ok(()) => {}
        Err(_) => unreachable!(),
    }
}
