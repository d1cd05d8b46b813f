ghost use Rattle.std.specs.Prelude.{◌≡◌, ◌≤◌, ◌++◌, IfSome, OnOk, decimal};
ghost use Rattle.post_mortem.specs.Dump.{place_text};
ghost use Rattle.program_meaning.specs.Results.{numbered_text};
ghost use Rattle.algolw_meaning.specs.Texts.{line, source_line, sum_line, diagnostic_line};

use account_book::{Counts, charge_of};
use itoa::Buffer;
use post_mortem::{place_line, source_line};
use std::alloc::{AllocError, Global};
use value_ops::{Card, Diagnostic, Place};

/// Adds the decimal text of a number.
pub fn push_number(out: &mut Vec<u8>, number: u64) -> Result<(), AllocError>
    ensures { OnOk result (out.new.items ≡ out.old.items ++ decimal number) }
{
    let mut buffer = Buffer::new();
    out.extend_from_slice(buffer.format(number).as_bytes())?;
    Ok(())
}

/// Adds a text and a line feed.
pub fn push_line(out: &mut Vec<u8>, text: &[u8]) -> Result<(), AllocError>
    ensures { OnOk result (out.new.items ≡ out.old.items ++ line text.now) }
{
    out.extend_from_slice(text)?;
    out.push(b'\n')?;
    Ok(())
}

/// Adds the line of a card: its number, a count or none, and the card.
pub fn push_source_line(
    out: &mut Vec<u8>,
    number: u32,
    count: Option<u32>,
    card: &Card,
) -> Result<(), AllocError>
    requires number { number ≤ 9999 }
    requires count { IfSome count (λ n. n ≤ 99999999) }
    ensures { OnOk result (out.new.items ≡ out.old.items ++ source_line number count card.now) }
{
    push_line(out, source_line(card, number, count).as_slice())
}

/// Adds a card's number and a column.
fn push_place(out: &mut Vec<u8>, place: Place) -> Result<(), AllocError>
    ensures { OnOk result (out.new.items ≡ out.old.items ++ place_text place) }
{
    out.extend_from_slice(place_line(place).as_slice())
}

/// Adds a line of a diagnostic, a fault or a limit: which of these it is, its number, its place and what it says.
pub fn push_numbered_line(
    out: &mut Vec<u8>,
    word: &[u8],
    number: u8,
    place: Place,
    text: &[u8],
) -> Result<(), AllocError>
    ensures { OnOk result (out.new.items ≡ out.old.items ++ line (numbered_text word.now number place text.now)) }
{
    out.extend_from_slice(word)?;
    out.extend_from_slice(b" ")?;
    push_number(out, u64::from(number))?;
    out.extend_from_slice(b" AT ")?;
    push_place(out, place)?;
    out.extend_from_slice(b": ")?;
    push_line(out, text)
}

/// Adds the line of a diagnostic.
pub fn push_diagnostic_line(out: &mut Vec<u8>, fault: Diagnostic) -> Result<(), AllocError>
    ensures { OnOk result (out.new.items ≡ out.old.items ++ diagnostic_line fault) }
{
    push_numbered_line(out, b"DIAGNOSTIC", fault.number, fault.place, fault.text())
}

/// Adds the line with what a job used and its charge.
pub fn push_sum_line(out: &mut Vec<u8>, counts: Counts) -> Result<(), AllocError>
    ensures { OnOk result (out.new.items ≡ out.old.items ++ sum_line counts) }
{
    out.extend_from_slice(b"CARDS ")?;
    push_number(out, u64::from(counts.cards))?;
    out.extend_from_slice(b" STEPS ")?;
    push_number(out, u64::from(counts.steps))?;
    out.extend_from_slice(b" LINES ")?;
    push_number(out, u64::from(counts.lines))?;
    out.extend_from_slice(b" CHARGE ")?;
    push_number(out, charge_of(counts))?;
    push_line(out, b"")
}
