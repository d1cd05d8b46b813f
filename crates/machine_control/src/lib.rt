//! The instructions of the machine that begin statements, jump, and enter, turn in and leave blocks and loops: a function for
//! each, over what a run holds.
#![tactic(auto)]

mod blocks;
mod control;
mod loops;

pub use blocks::{close_widths, declare, declared, enter_block, leave_block};
pub use control::{assert, begin_row, choose, goto, jump_unless, on_to};
pub use loops::{again, end_turn, first_turn, list_turn, next_turn, turn};
