ghost use Rattle.std.specs.Prelude.{◌≡◌, IfSome, IsSome, Some};
ghost use Rattle.cell_store.specs.Cells.{a_word};
ghost use Rattle.cell_store.specs.Words.{Integer};
ghost use Rattle.machine_rows.specs.Contents.{thunk_in};
ghost use Rattle.machine_rows.specs.Names as named;

use cell_store::{Closed, Entry, Purpose, Store, Wide, Word};
use stack_code::Mode;

/// How many entries lie below those of the text so many links out.
#[inline(always)]
pub fn start_out(store: &Store, links: u16) -> u32
    requires { IsSome (named.start_out store.now links) }
    ensures { named.start_out store.now links ≡ Some result }
{
    store.start_out(u32::from(links))
}

/// The entry at a position of the text so many links out.
#[inline(always)]
#[tactic(auto, using(crate::proofs::Finding::entry_within))]
pub fn entry_out(store: &Store, links: u16, position: u32) -> Entry
    requires { IsSome (named.entry_out store.now links position) }
    ensures { named.entry_out store.now links position ≡ Some result }
{
    store.entry(start_out(store, links) as usize + position as usize)
}

/// The cell of the name at a position of the text so many links out.
#[inline(always)]
#[tactic(auto, using(crate::proofs::Shown::content_found))]
pub fn cell_out(store: &Store, links: u16, position: u32) -> u32
    requires { IsSome (named.cell_out store.now links position) }
    ensures { named.cell_out store.now links position ≡ Some result }
{
    match entry_out(store, links, position) {
        Entry::Name { cell, .. } | Entry::ProcedureName { cell, .. } => cell,
        _ => unreachable!(),
    }
}

/// What a variable is wanted for.
#[inline(always)]
pub fn wanted(store: &Store, mode: Mode) -> Purpose
    requires { IsSome (named.wanted_for store.now mode) }
    ensures { named.wanted_for store.now mode ≡ Some result }
{
    match mode {
        Mode::Value => Purpose::Value,
        Mode::Place => Purpose::Place,
        Mode::AsAsked => {
            let Some(number) = store.current() else {
                unreachable!()
            };
            store.frame(number).purpose
        }
    }
}

/// The copied actual that a formal stands for.
pub fn thunk_out(store: &Store, links: u16, position: u32) -> Closed
    requires { IsSome (thunk_in (named.content_out store.now links position)) }
    ensures { thunk_in (named.content_out store.now links position) ≡ Some result }
{
    match store.wide_cell(cell_out(store, links, position)) {
        Some(Wide::Thunk(thunk)) => *thunk,
        _ => unreachable!(),
    }
}

/// The integer that a variable has, where it has one.
#[inline(always)]
pub fn integer_out(store: &Store, links: u16, position: u32) -> Option<i32>
    requires { IsSome (named.cell_out store.now links position) }
    ensures { IfSome result (λ n. named.content_out store.now links position ≡ Some (a_word (Integer n))) }
{
    match store.cell(cell_out(store, links, position)) {
        Word::Integer(number) => Some(number),
        _ => None,
    }
}
