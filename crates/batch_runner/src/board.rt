//! The line of an operator's board.
ghost use Rattle.std.specs.Prelude.{◌≡◌, ◌↔◌, ◌++◌, IfOk, IfSome, IsSome, IsTrue, OnOk, decimal};
ghost use Rattle.operator_board.specs.Tallies.{AddsUp, tallies};
ghost use Rattle.batch_runner.specs.Board.{board_text};

use itoa::Buffer;
use office::{Office, OfficeBrand};
use operator_board::Tallies;
use std::alloc::{AllocError, Global};
use std::sync::Wait;

/// A line of a board, whose numbers add up.
#[derive(Drop)]
pub struct BoardLine {
    /// The numbers.
    pub counts: Tallies,
    /// The line, with its line feed.
    pub text: Vec<u8>,
    pub ghost says: { text.items ≡ board_text counts },
    pub ghost add_up: { AddsUp counts },
}

/// The line of an office's board, by a read of it; none exactly where the office has no board.
pub fn board_line<B: OfficeBrand, R: Wait>(
    rt: &R,
    alloc: Global,
    office: &mut Office<B>,
) -> Result<Option<BoardLine>, AllocError>
    ensures some { IfOk result (λ line. IsSome line ↔ IsTrue B.boarded) }
    ensures line { IfOk result (λ line. IfSome line (λ l. l.text.items ≡ board_text (tallies office.old.register.journal))) }
    ensures same { office.new ≡ office.old }
{
    match office.board_read(rt) {
        None => Ok(None),
        Some(counts) => {
            let line = line_of(alloc, counts)?;
            Ok(Some(line))
        }
    }
}

/// The line of these tallies.
fn line_of(alloc: Global, counts: Tallies) -> Result<BoardLine, AllocError>
    requires { AddsUp counts }
    ensures { IfOk result (λ line. line.text.items ≡ board_text counts) }
{
    let text = text_of(alloc, counts)?;
    Ok(BoardLine { counts, text })
}

/// The text of these tallies.
fn text_of(alloc: Global, counts: Tallies) -> Result<Vec<u8>, AllocError>
    ensures { IfOk result (λ text. text.items ≡ board_text counts) }
{
    let mut text = Vec::new(alloc);
    push_count(&mut text, b"BOARD ARRIVED ", counts.arrived)?;
    push_count(&mut text, b" ACCEPTED ", counts.accepted)?;
    push_count(&mut text, b" REFUSED ", counts.refused)?;
    push_count(&mut text, b" ENDED ", counts.ended)?;
    push_count(&mut text, b" PRINTED ", counts.printed)?;
    text.push(b'\n')?;
    Ok(text)
}

/// Adds a word and the digits of a number.
fn push_count(out: &mut Vec<u8>, word: &[u8], count: u64) -> Result<(), AllocError>
    ensures { OnOk result (out.new.items ≡ out.old.items ++ word.now ++ decimal count) }
{
    let mut buffer = Buffer::new();
    out.extend_from_slice(word)?;
    out.extend_from_slice(buffer.format(count).as_bytes())?;
    Ok(())
}
