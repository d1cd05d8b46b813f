ghost use Rattle.std.specs.Prelude.{◌≡◌, ◌++◌, ◌≤◌, take, decimal, codes};
ghost use Rattle.std.specs.Fmt.{signed_decimal};
ghost use Rattle.post_mortem.specs.Values.{quoted, value_text};
ghost use Rattle.post_mortem.specs.Shown.{pair_text, bounds_text, shown_text, DimensionsFit, IsNoRecord};
ghost use Rattle.post_mortem.specs.Dump.{place_text, entry_text, dump_text, IfShown};

use crate::entries::{Dimensions, Entry, Shown};
use crate::lines::without_end_blanks;
use line_text::{Line, bits_text, logical_text};
use value_ops::{Name, Place, Value};

/// The line of an entry, cut at 132 columns and without blanks at its end. The count of the dimensions that it shows is
/// at most 8, and its simple value is no record.
pub fn dump_line(entry: &Entry) -> Line
    requires dimensions { IfShown entry.now DimensionsFit }
    requires no_record { IfShown entry.now IsNoRecord }
    ensures { result ≡ dump_text entry.now }
{
    let mut line = Line::new();
    append_entry(&mut line, entry);
    without_end_blanks(&line)
}

/// Puts the text of an entry behind a line, or as much of it as fits.
fn append_entry(line: &mut Line, entry: &Entry)
    requires dimensions { IfShown entry.now DimensionsFit }
    requires no_record { IfShown entry.now IsNoRecord }
    ensures { line.new ≡ take 132 (line.old ++ entry_text entry.now) }
{
    match entry {
        Entry::Block(place) => {
            line.append(b"  BLOCK ");
            append_place(line, *place);
        }
        Entry::Call(name, place) => {
            line.append(b"  CALL ");
            append_name(line, name);
            line.append(b" FROM ");
            append_place(line, *place);
        }
        Entry::Actual(place) => {
            line.append(b"  ACTUAL ");
            append_place(line, *place);
        }
        Entry::For(place) => {
            line.append(b"  FOR ");
            append_place(line, *place);
        }
        Entry::Shown(name, shown) => {
            line.append(b"    ");
            append_name(line, name);
            append_shown(line, shown);
        }
    }
}

/// Puts a name behind a line, or as much of it as fits.
fn append_name(line: &mut Line, name: &Name)
    ensures { line.new ≡ take 132 (line.old ++ name.now) }
{
    line.append(name.as_slice());
}

/// A card and a column, as they are shown.
pub fn place_line(place: Place) -> Line
    ensures { result ≡ place_text place }
{
    let mut line = Line::new();
    append_number(&mut line, u32::from(place.card));
    line.append(b",");
    append_number(&mut line, u32::from(place.column));
    line
}

/// Puts a card and a column behind a line, or as much of it as fits.
fn append_place(line: &mut Line, place: Place)
    ensures { line.new ≡ take 132 (line.old ++ place_text place) }
{
    line.append(place_line(place).as_slice());
}

/// Puts what a name stands for behind a line, or as much of it as fits.
fn append_shown(line: &mut Line, shown: &Shown)
    requires dimensions { DimensionsFit shown.now }
    requires no_record { IsNoRecord shown.now }
    ensures { line.new ≡ take 132 (line.old ++ shown_text shown.now) }
{
    match shown {
        Shown::Undefined => line.append(b" = ?"),
        Shown::Simple(value) => {
            line.append(b" = ");
            append_value(line, value);
        }
        Shown::Record(class, record) => {
            line.append(b" = ");
            append_name(line, class);
            line.append(b".");
            append_number(line, u32::from(record.0) + 1);
        }
        Shown::Bounds(dimensions) => append_array(line, dimensions),
        Shown::ByName => line.append(b" NAME"),
        Shown::Procedure => line.append(b" PROCEDURE"),
    }
}

/// Puts a simple value that is no record behind a line, or as much of it as fits.
fn append_value(line: &mut Line, value: &Value)
    requires { IsNoRecord (Shown.Simple value.now) }
    ensures { line.new ≡ take 132 (line.old ++ value_text value.now) }
{
    match value {
        Value::Integer(number) => append_integer(line, *number),
        Value::Logical(truth) => line.append(logical_text(*truth)),
        Value::Bits(bits) => {
            line.append(b"#");
            line.append(&bits_text(*bits));
        }
        Value::Str(string) => append_string(line, string.as_slice()),
        Value::Reference(None) => line.append(b"NULL"),
        Value::Reference(Some(_)) => unreachable!("a record is no simple value"),
    }
}

/// Puts a string in quotes behind a line, or as much of it as fits.
fn append_string(line: &mut Line, string: &[u8])
    ensures { line.new ≡ take 132 (line.old ++ (codes "\"" ++ quoted string.now ++ codes "\"")) }
{
    line.append(b"\"");
    for character in string {
        if *character == b'"' {
            line.append(b"\"\"");
        } else {
            line.append(&[*character]);
        }
    }
    line.append(b"\"");
}

/// Puts ARRAY and the bounds of an array behind a line, or as much of them as fits.
fn append_array(line: &mut Line, dimensions: &Dimensions)
    requires { dimensions.now.count ≤ 8 }
    ensures { line.new ≡ take 132 (line.old ++ (codes " ARRAY (" ++ bounds_text dimensions.now ++ codes ")")) }
{
    line.append(b" ARRAY (");
    let bounds = &dimensions.bounds[..usize::from(dimensions.count)];
    for (i, pair) in bounds.iter().enumerate() {
        if i > 0 {
            line.append(b",");
        }
        append_pair(line, pair);
    }
    line.append(b")");
}

/// Puts the bounds of a dimension behind a line, or as much of them as fits.
fn append_pair(line: &mut Line, pair: &(i32, i32))
    ensures { line.new ≡ take 132 (line.old ++ pair_text pair.now) }
{
    let (least, greatest) = pair;
    append_integer(line, *least);
    line.append(b"::");
    append_integer(line, *greatest);
}

/// Puts an INTEGER behind a line, or as much of it as fits.
fn append_integer(line: &mut Line, integer: i32)
    ensures { line.new ≡ take 132 (line.old ++ signed_decimal integer) }
{
    line.append_number(i64::from(integer));
}

/// Puts a number behind a line, or as much of it as fits.
fn append_number(line: &mut Line, number: u32)
    ensures { line.new ≡ take 132 (line.old ++ decimal number) }
{
    line.append_number(i64::from(number));
}
