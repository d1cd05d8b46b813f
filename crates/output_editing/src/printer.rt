ghost use Rattle.std.specs.Prelude.{◌≡◌, ◌≤◌, ◌<◌, ◌++◌, ◌∷◌, [], List, None, Some, IfOk, length, slice_get};
ghost use Rattle.output_editing.specs.Layout.{Piece, Break, Put};
ghost use Rattle.output_editing.specs.Written.{string_puts, puts, written_first, written_on};
ghost use Rattle.output_editing.specs.Page.{HasPrinted, page_of, answer};
ghost use Rattle.output_editing.specs.Held.{takes, begun, with_room};

use crate::fields::{integer_field, text_field};
use crate::widths::Widths;
use line_text::{Line, bits_text, logical_text};
use std::alloc::{AllocError, Global};
use std::marker::Model;
use value_ops::{Limit, Value};

/// The columns of a line.
const COLUMNS: usize = 132;

/// The most lines of a job.
const MOST_LINES: usize = 500;

/// What a job prints: at most as many lines as its limit, each of at most 132 columns. Contracts see it as a page, which
/// has the lines of the pieces that were printed since the last `reset`. No call but `new` takes memory.
#[derive(Drop)]
pub struct Printer {
    /// The closed lines, and room for more.
    lines: Vec<Line>,
    /// How many lines are closed.
    closed: usize,
    /// The line that is open.
    open_line: Option<Line>,
    /// The most lines that the job may print.
    limit: usize,
    /// Whether a line more than that was to begin.
    is_full: bool,
}

impl Model for Printer {
    ghost use Rattle.std.specs.Prelude.{◌++◌, map, take};
    ghost use Rattle.short_text.specs.Blanks.{trimmed};
    ghost use Rattle.output_editing.specs.Layout.{printed};
    ghost use Rattle.output_editing.specs.Page.{Page};
    ghost use Rattle.output_editing.specs.Held.{Kept};

    ghost Value = { Page };

    ghost view = { λ p. record {
      limit = p.limit;
      open_line = p.open_line;
      is_full = p.is_full;
      lines = map trimmed (take p.closed p.lines.items) ++ printed p.open_line;
    } };

    ghost invariant = { λ p. Kept p.lines.items p.closed p.open_line p.limit };
}

impl Printer {
    /// A printer with room for 500 lines, which is also its limit, and with nothing printed.
    pub fn new(alloc: Global) -> Result<Printer, AllocError>
        ensures { IfOk result (λ printer. printer ≡ page_of 500 []) }
    {
        Ok(Printer {
            lines: vec![in alloc; Line::new(); MOST_LINES]?,
            closed: 0,
            open_line: None,
            limit: MOST_LINES,
            is_full: false,
        })
    }

    /// Begins anew with this limit of lines, 1 to 500, and with nothing printed.
    pub fn reset(&mut self, lines: u32)
        requires some { 1 ≤ lines }
        requires most { lines ≤ 500 }
        ensures { self.new ≡ page_of lines [] }
    {
        self.closed = 0;
        self.open_line = None;
        self.limit = lines as usize;
        self.is_full = false;
    }

    /// Prints the first value of WRITE by these widths, and begins a line for it; a reference isn't printed, and only closes the open one. L2
    /// exactly where this needs a line more than the limit, or a call before did; the lines within the limit stay.
    pub fn write_first(&mut self, value: &Value, widths: Widths) -> Result<(), Limit>
        requires some { 1 ≤ widths.integer }
        requires columns { widths.integer ≤ 132 }
        requires blanks { widths.blanks ≤ 132 }
        ensures limit { self.new.limit ≡ self.old.limit }
        ensures printed { (pieces : List Piece) → HasPrinted self.old pieces
            → HasPrinted self.new (pieces ++ written_first value.now widths) }
        ensures answer { (pieces : List Piece) → HasPrinted self.old pieces
            → result ≡ answer self.old.limit (pieces ++ written_first value.now widths) }
    {
        self.end_line();
        self.write_on(value, widths)
    }

    /// Prints a further value of WRITE, or one of WRITEON, by these widths, on the open line where it fits there, and else on a new one; a
    /// reference isn't printed. L2 exactly where this needs a line more than the limit, or a call before did; the lines
    /// within the limit stay.
    pub fn write_on(&mut self, value: &Value, widths: Widths) -> Result<(), Limit>
        requires some { 1 ≤ widths.integer }
        requires columns { widths.integer ≤ 132 }
        requires blanks { widths.blanks ≤ 132 }
        ensures limit { self.new.limit ≡ self.old.limit }
        ensures printed { (pieces : List Piece) → HasPrinted self.old pieces
            → HasPrinted self.new (pieces ++ written_on value.now widths) }
        ensures answer { (pieces : List Piece) → HasPrinted self.old pieces
            → result ≡ answer self.old.limit (pieces ++ written_on value.now widths) }
    {
        self.put_value(value, widths);
        if self.is_full {
            Err(Limit::Lines)
        } else {
            Ok(())
        }
    }

    /// Closes the open line, as IOCONTROL(2) does. Where none is open it does nothing.
    pub fn end_line(&mut self)
        ensures limit { self.new.limit ≡ self.old.limit }
        ensures printed { (pieces : List Piece) → HasPrinted self.old pieces
            → HasPrinted self.new (pieces ++ Break ∷ []) }
    {
        self.close_line();
    }

    /// How many lines are begun, at most the limit.
    pub fn line_count(&self) -> u32
        ensures count { result ≡ length self.now.lines }
        ensures within { result ≤ self.now.limit }
    {
        let open = if self.open_line.is_some() { 1 } else { 0 };
        (self.closed + open) as u32
    }

    /// A line, without the blanks at its end, by its number from 0.
    pub fn line(&self, number: u32) -> &[u8]
        requires { number < length self.now.lines }
        ensures { slice_get self.now.lines number ≡ Some result.now }
    {
        let number = number as usize;
        match &self.open_line {
            Some(line) if number == self.closed => line.trimmed(),
            _ => self.lines[number].trimmed(),
        }
    }

    /// Puts what is printed of a value: of a reference nothing is.
    fn put_value(&mut self, value: &Value, widths: Widths)
        requires { widths.integer ≤ 132 }
        ensures limit { self.new.limit ≡ self.old.limit }
        ensures printed { (pieces : List Piece) → HasPrinted self.old pieces
            → HasPrinted self.new (pieces ++ puts value.now widths) }
    {
        let blanks = usize::from(widths.blanks);
        match value {
            Value::Integer(number) => {
                self.put(
                    integer_field(usize::from(widths.integer), *number).as_slice(),
                    blanks,
                );
            }
            Value::Logical(truth) => {
                self.put(text_field(6, logical_text(*truth)).as_slice(), blanks);
            }
            Value::Bits(bits) => self.put(text_field(14, &bits_text(*bits)).as_slice(), blanks),
            Value::Str(string) => self.put_string(string.as_slice()),
            Value::Reference(_) => {}
        }
    }

    /// Puts a string. One that is longer than a line begins on an empty one, and goes on on the next.
    fn put_string(&mut self, string: &[u8])
        requires { length string.now ≤ 256 }
        ensures limit { self.new.limit ≡ self.old.limit }
        ensures printed { (pieces : List Piece) → HasPrinted self.old pieces
            → HasPrinted self.new (pieces ++ string_puts string.now) }
    {
        if string.len() <= COLUMNS {
            self.put(string, 0);
        } else {
            let (front, rest) = string.split_at(COLUMNS);
            self.put(front, 0);
            self.put(rest, 0);
        }
    }

    /// Puts a text on the open line where it fits there, and else on a new one; and then blanks, as many as fit.
    fn put(&mut self, text: &[u8], after: usize)
        requires { length text.now ≤ 132 }
        ensures limit { self.new.limit ≡ self.old.limit }
        ensures printed { (pieces : List Piece) → HasPrinted self.old pieces
            → HasPrinted self.new (pieces ++ Put text.now after ∷ []) }
    {
        self.make_room(text);
        // Where no line is open by now, the limit is met.
        if let Some(line) = &mut self.open_line {
            line.append(text);
            line.blanks(after);
        }
    }

    /// Begins a line where none is open on which a text fits.
    fn make_room(&mut self, text: &[u8])
        ensures { self.new ≡ with_room self.old text.now }
    {
        if !self.takes(text) {
            self.begin_line();
        }
    }

    /// Whether a line is open on which a text fits.
    fn takes(&self, text: &[u8]) -> bool
        ensures { result ≡ takes self.now.open_line text.now }
    {
        match &self.open_line {
            Some(line) => line.as_slice().len() + text.len() <= COLUMNS,
            None => false,
        }
    }

    /// Closes the open line, and begins one where the limit allows one more.
    fn begin_line(&mut self)
        ensures { self.new ≡ begun self.old }
    {
        self.close_line();
        if self.closed < self.limit {
            self.open_line = Some(Line::new());
        } else {
            self.is_full = true;
        }
    }

    /// Closes the open line, where there is one.
    fn close_line(&mut self)
        ensures { self.new ≡ record self.old { open_line = None } }
    {
        if let Some(line) = self.open_line.take() {
            self.lines[self.closed] = line;
            self.closed += 1;
        }
    }
}
