//! The right of an office to post.
ghost use Rattle.std.specs.Prelude.{◌≡◌};
ghost use Rattle.crossbeam_utils.specs.Seq.{cell_view};
ghost use Rattle.office.specs.Posted.{HasPosted, LacksNewest};

use crate::register::Register;
use operator_board::{Board, BoardWriter};
use std::sync::{Arc, Wait};

/// A board, and the right to post on it.
#[derive(Drop)]
pub(crate) struct Posting {
    pub(crate) board: Arc<Board>,
    pub(crate) writer: BoardWriter,
    ghost here: { writer.pass.table_id ≡ board.value.cell.table.shared.table_id },
}

impl Posting {
    /// Posts the newest event of a register, where all those before it are posted.
    pub(crate) fn post_newest<R: Wait>(&mut self, rt: &R, register: &Register)
        requires { LacksNewest register.now (cell_view self.old.writer.pass) }
        ensures { HasPosted register.now.core.openings register.now.journal (cell_view self.new.writer.pass) }
    {
        if let Some(event) = register.newest() {
            self.board.post(rt, &mut self.writer, event);
        }
    }
}
