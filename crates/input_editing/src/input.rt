ghost use Rattle.std.specs.Prelude.{◌≡◌, ◌+◌, ◌-◌, ◌*◌, ◌%◌, ◌^◌, ◌<◌, ◌≤◌, true, false, Ok, Err, IfOk, IfErr, IfSome, OnErr, IsTrue, MatchOption, length};
ghost use Rattle.input_editing.specs.Columns.{card_columns, card_end, read_from, line_at, is_on_card, card_read};
ghost use Rattle.input_editing.specs.Scanning.{is_readable, item_start, scanned};

use crate::items::{item_at, leading_blanks};
use std::marker::Model;
use value_ops::{Card, Fault, SimpleType, Text, Value};

/// The columns of a card.
const COLUMNS: usize = 80;

/// How far the data cards are read, as a place: a number of columns, of which each card has 80.
#[derive(Clone, Copy, Debug, PartialEq, Eq)]
pub struct Input {
    /// The number of the next column's card, from 0.
    card: usize,
    /// How many columns of that card are read, at most 79.
    column: usize,
}

impl Model for Input {
    ghost use Rattle.std.specs.Prelude.{ℕ, ◌+◌, ◌-◌, ◌*◌, ◌/◌, ◌%◌, ◌<◌, ◌≤◌, ◌^◌};

    ghost Value = { ℕ };

    ghost view = { λ i. 80 * i.card + i.column };

    ghost invariant = { λ i. (i.column < 80) × (80 * i.card + i.column ≤ 80 * (2 ^ 64 - 1)) };

    ghost inverse = { λ place. record { card = place / 80; column = place % 80 } };
}

impl Input {
    /// The place before the first column: nothing is read.
    pub fn new() -> Input
        ensures { result ≡ 0 }
    {
        Input { card: 0, column: 0 }
    }

    /// Reads the next item, of this type, as READ where `next_card` is true: the rest of the current card is dropped. READON
    /// goes on from here. F11 where no item is left, and F12 where the next one hasn't the form of the type: then the
    /// place stays as it was.
    pub fn read(
        &mut self,
        cards: &[Card],
        next_card: bool,
        kind: SimpleType,
    ) -> Result<Value, Fault>
        requires { IsTrue (is_readable kind) }
        ensures value { IfOk result (λ value.
            scanned cards.now (read_from next_card self.old) kind ≡ Ok (value, self.new)) }
        ensures fault { IfErr result (λ fault. scanned cards.now (read_from next_card self.old) kind ≡ Err fault) }
        ensures kept { OnErr result (self.new ≡ self.old) }
    {
        let from = if next_card { self.card_end() } else { *self };
        let (value, behind) = from.scan(cards, kind)?;
        *self = behind;
        Ok(value)
    }

    /// Drops the rest of the current card, and takes the next card whole, filled with blanks to 80 characters. F11 where no
    /// card is left: then the place stays as it was.
    pub fn read_card(&mut self, cards: &[Card]) -> Result<Text, Fault>
        ensures card { IfOk result (λ card. card_read cards.now self.old ≡ Ok (card, self.new)) }
        ensures fault { IfErr result (λ fault. card_read cards.now self.old ≡ Err fault) }
        ensures kept { OnErr result (self.new ≡ self.old) }
    {
        let (card, behind) = self.next_card(cards)?;
        *self = behind;
        Ok(card)
    }

    /// Drops the rest of the current card.
    pub fn skip_card(&mut self)
        ensures { self.new ≡ card_end self.old }
    {
        *self = self.card_end();
    }

    /// The next item of a type, and the place behind it.
    fn scan(self, cards: &[Card], kind: SimpleType) -> Result<(Value, Input), Fault>
        requires { IsTrue (is_readable kind) }
        ensures { result ≡ scanned cards.now self kind }
    {
        let start = self.behind_blanks(cards);
        let line = start.line(cards).ok_or(Fault::NoDataLeft)?;
        let (value, columns) = item_at(kind, line.as_slice()).ok_or(Fault::DatumIllFormed)?;
        Ok((value, start.advanced(columns)))
    }

    /// The next card, filled, and the place behind it.
    fn next_card(self, cards: &[Card]) -> Result<(Text, Input), Fault>
        ensures { result ≡ card_read cards.now self }
    {
        let start = self.card_end();
        let card = start.line(cards).ok_or(Fault::NoDataLeft)?;
        Ok((Text::from_slice(card.as_slice()), start.advanced(COLUMNS)))
    }

    /// The first place from here on that isn't blank, or one behind all cards.
    fn behind_blanks(self, cards: &[Card]) -> Input
        ensures { result ≡ item_start cards.now self }
    {
        let mut place = self;
        while let Some(line) = place.line(cards) {
            let blanks = leading_blanks(line.as_slice());
            place = place.advanced(blanks);
            if blanks < line.len() {
                return place;
            }
        }
        place
    }

    /// What is left of the card here, with the blanks that fill it, where there is a card.
    fn line(self, cards: &[Card]) -> Option<Card>
        ensures line { MatchOption result (is_on_card cards.now self ≡ false)
            (λ line. (is_on_card cards.now self ≡ true) × (line ≡ line_at cards.now self)) }
        ensures columns { IfSome result (λ line. self % 80 + length line ≡ 80) }
        ensures counted { IfSome result (λ line. self + length line ≤ 80 * (2 ^ 64 - 1)) }
    {
        let columns = columns_of(cards.get(self.card)?);
        Some(Card::from_slice(&columns.as_slice()[self.column..]))
    }

    /// The place so many columns further, which is on the same card or at its end.
    fn advanced(self, columns: usize) -> Input
        requires within { self % 80 + columns ≤ 80 }
        requires counted { self + columns ≤ 80 * (2 ^ 64 - 1) }
        ensures { result ≡ self + columns }
    {
        let column = self.column + columns;
        if column < COLUMNS {
            Input {
                card: self.card,
                column,
            }
        } else {
            Input {
                card: self.card + 1,
                column: 0,
            }
        }
    }

    /// Where the current card ends.
    fn card_end(self) -> Input
        ensures { result ≡ card_end self }
    {
        if self.column == 0 {
            self
        } else {
            Input {
                card: self.card + 1,
                column: 0,
            }
        }
    }
}

/// The 80 columns of a card.
#[tactic(auto, using(crate::proofs::CardColumns::card_columns_filled))]
fn columns_of(card: &Card) -> Card
    ensures columns { result ≡ card_columns card.now }
    ensures count { length result ≡ 80 }
{
    let mut columns = *card;
    columns.extend_with(COLUMNS - card.len(), b' ');
    columns
}
