ghost use Rattle.std.specs.Prelude.{◌≡◌, ◌+◌, ◌≤◌, ◌++◌, List, IfOk, IfSome, OnOk, length};
ghost use Rattle.value_ops.specs.declared.places.Place as places;
ghost use Rattle.stack_machine.specs.Desks.{shown_by};
ghost use Rattle.algolw_meaning.specs.Running.{lines};
ghost use Rattle.algolw_meaning.specs.Texts.{source_lines};
ghost use Rattle.job_runner.specs.Counted.{AreFew, HasCounts, IsCounted, IsWithinSteps, count_beside, lines_beside};
ghost use Rattle.job_runner.specs.Noting as noting;

use crate::text;
use stack_code::Code;
use stack_machine::Desk;
use std::alloc::{AllocError, Global};
use value_ops::{Card, Place};

/// The first statement on a card.
#[derive(Clone, Copy)]
pub struct First {
    /// Its first token.
    pub place: Place,
    /// How often it was begun.
    pub count: u32,
}

/// Adds the cards of a deck, with no counts.
pub fn push_source(out: &mut Vec<u8>, deck: &[Card]) -> Result<(), AllocError>
    requires { length deck.now ≤ 2000 }
    ensures { OnOk result (out.new.items ≡ out.old.items ++ source_lines 1 deck.now) }
{
    for (i, card) in deck.iter().enumerate() {
        text::push_source_line(out, i as u32 + 1, None, card)?;
    }
    Ok(())
}

/// Adds the cards of a deck that was run, each with the count of the first statement on it.
pub fn push_counted_source(
    out: &mut Vec<u8>,
    deck: &[Card],
    firsts: &[Option<First>],
) -> Result<(), AllocError>
    requires cards { length deck.now ≤ 2000 }
    requires every { length firsts.now ≡ length deck.now + 1 }
    requires few { AreFew firsts.now }
    ensures { OnOk result (out.new.items ≡ out.old.items ++ lines (lines_beside firsts.now 1 deck.now)) }
{
    for (i, card) in deck.iter().enumerate() {
        let count = count_beside(firsts[i + 1]);
        text::push_source_line(out, i as u32 + 1, count, card)?;
    }
    Ok(())
}

/// The count beside a card with this first statement.
fn count_beside(first: Option<First>) -> Option<u32>
    ensures { result ≡ count_beside first }
{
    match first {
        Some(first) => Some(first.count),
        None => None,
    }
}

/// The first statement on each card of a deck that was run at a desk, by the card's number; no card is 0. Statements that
/// begin at one place count together.
pub fn first_statements(
    alloc: Global,
    code: &Code,
    desk: &Desk,
    cards: usize,
) -> Result<Vec<Option<First>>, AllocError>
    ghost begun: { List places.Place }
    requires cards { cards ≤ 2000 }
    requires counted { IsCounted code.now.given.statements (shown_by desk.now).counts begun }
    requires within { IsWithinSteps begun }
    ensures counts { IfOk result (λ firsts. HasCounts code.now.given.statements begun cards firsts.items) }
    ensures few { IfOk result (λ firsts. AreFew firsts.items) }
{
    let Ok(statements) = u32::try_from(code.statement_count()) else {
        return Err(AllocError);
    };
    let mut firsts = vec![in alloc; None; cards + 1]?;
    for number in 0..statements {
        note(
            &mut firsts,
            code.statement_place(number),
            desk.count(number),
        );
    }
    Ok(firsts)
}

/// Counts what begins at a place, on the card of that place.
fn note(firsts: &mut Vec<Option<First>>, place: Place, count: u32)
    requires all { AreFew firsts.old.items }
    requires few { count ≤ 10000000 }
    ensures { firsts.new.items ≡ noting.noted_on place count firsts.old.items }
{
    let card = usize::from(place.card);
    if card < firsts.len() {
        firsts[card] = noted(firsts[card], place, count);
    }
}

/// The first statement on a card on which so much begins at a place.
fn noted(first: Option<First>, place: Place, count: u32) -> Option<First>
    requires first { IfSome first (λ f. f.count ≤ 10000000) }
    requires few { count ≤ 10000000 }
    ensures { result ≡ noting.noted first place count }
{
    match first {
        None => Some(First { place, count }),
        Some(first) if first.place == place => Some(First {
            place,
            count: first.count + count,
        }),
        Some(first) => Some(first),
    }
}
