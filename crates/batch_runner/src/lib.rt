//! Runs the jobs of a batch by a pool of workers, and writes its listing, or states one of its accounts.
#![tactic(auto)]

mod board;
mod clerk;
mod listing;
mod nowhere;
mod running;
mod statement;

pub use batch_intake::Halt;
pub use board::{BoardLine, board_line};
pub use listing::{Written, tally_listing, write_listing};
pub use running::Staff;
pub use statement::make_statement;
