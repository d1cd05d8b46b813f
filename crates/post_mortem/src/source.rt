ghost use Rattle.std.specs.Prelude.{◌≡◌, ◌+◌, ◌^◌, ◌++◌, ◌<◌, ◌≤◌, length, decimal, IfSome};
ghost use Rattle.short_text.specs.Blanks.{right};
ghost use Rattle.post_mortem.specs.Source.{count_text, source_text};

use crate::lines::without_end_blanks;
use line_text::Line;
use value_ops::Card;

/// The columns of a card's number.
const NUMBER_WIDTH: usize = 4;

/// The columns of a count.
const COUNT_WIDTH: usize = 8;

/// The line of a card in a listing: its number, at most 9999; a count, at most 99,999,999, or blanks where there is
/// none; and the card, without blanks at its end.
pub fn source_line(card: &Card, number: u32, count: Option<u32>) -> Line
    requires number { number ≤ 9999 }
    requires count { IfSome count (λ n. n ≤ 99999999) }
    ensures { result ≡ source_text card.now number count }
{
    let mut line = Line::new();
    append_right(&mut line, NUMBER_WIDTH, number);
    line.append(b" ");
    append_count(&mut line, count);
    line.append(b"  ");
    line.append(card.as_slice());
    without_end_blanks(&line)
}

/// Puts a count behind a line that has room for its columns, or blanks in place of it.
fn append_count(line: &mut Line, count: Option<u32>)
    requires count { IfSome count (λ n. n ≤ 99999999) }
    requires room { length line.old + 8 ≤ 132 }
    ensures text { line.new ≡ line.old ++ right 8 (count_text count) }
    ensures columns { length line.new ≡ length line.old + 8 }
{
    match count {
        Some(count) => append_right(line, COUNT_WIDTH, count),
        None => line.blanks(COUNT_WIDTH),
    }
}

/// Puts a number of at most so many digits behind a line that has room for them, right-justified in as many columns.
fn append_right(line: &mut Line, columns: usize, number: u32)
    requires some { 0 < columns }
    requires digits { number < 10 ^ columns }
    requires room { length line.old + columns ≤ 132 }
    ensures text { line.new ≡ line.old ++ right columns (decimal number) }
    ensures columns { length line.new ≡ length line.old + columns }
{
    line.number(columns, i64::from(number));
}
