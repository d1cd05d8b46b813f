//! What an office does with the board that it may have.
ghost use Rattle.std.specs.Prelude.{◌≡◌, IfSome, MatchOption, None, Some, is_some};
ghost use Rattle.crossbeam_utils.specs.Seq.{cell_view};
ghost use Rattle.operator_board.specs.Tallies as counting;
ghost use Rattle.office.specs.Posted.{LacksNewest};
ghost use Rattle.office.specs.Shown.{IsPosted};

use crate::posting::Posting;
use crate::register::Register;
use operator_board::Tallies;
use std::sync::Wait;

/// Posts the newest event of a register, where there is a board, on which all those before it are posted.
pub(crate) fn post_newest<R: Wait>(rt: &R, posting: &mut Option<Posting>, register: &Register)
    requires { IfSome posting.old (λ p. LacksNewest register.now (cell_view p.writer.pass)) }
    ensures posted { IsPosted register.now posting.new }
    ensures there { is_some posting.new ≡ is_some posting.old }
{
    if let Some(posting) = posting {
        posting.post_newest(rt, register);
    }
}

/// What is posted, where there is a board.
pub(crate) fn read<R: Wait>(rt: &R, posting: &mut Option<Posting>) -> Option<Tallies>
    ensures { MatchOption posting.old ((posting.new ≡ None) × (result ≡ None)) (λ p. (q : Posting) × (posting.new ≡ Some q)
        × (cell_view q.writer.pass ≡ cell_view p.writer.pass) × (result ≡ Some (counting.tallies (cell_view p.writer.pass).events))) }
{
    match posting {
        None => None,
        Some(posting) => Some(posting.board.read_own(rt, &mut posting.writer)),
    }
}
