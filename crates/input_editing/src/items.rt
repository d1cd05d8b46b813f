ghost use Rattle.std.specs.Prelude.{◌≡◌, ◌≤◌, None, Some, IfSome, IsTrue, MatchOption, length, drop};
ghost use Rattle.std.specs.Char.{is_ascii_hexdigit};
ghost use Rattle.std.specs.List.{list_all, prefix_len};
ghost use Rattle.input_editing.specs.Items.{literal};
ghost use Rattle.input_editing.specs.Scanning.{is_blank, is_readable, ends_item, integer_of, logical_of, hexadecimal, bits_of, begins_with_quote, literal_at, string_at, word, item_at};

use std::str;
use value_ops::{SimpleType, Text, Value, fill};

/// The most digits of BITS.
const MOST_DIGITS: usize = 8;

/// The item of a type that a line begins with: its value, and how many columns it takes.
pub fn item_at(kind: SimpleType, line: &[u8]) -> Option<(Value, usize)>
    requires readable { IsTrue (is_readable kind) }
    requires short { length line.now ≤ 80 }
    ensures item { result ≡ item_at kind line.now }
    ensures within { IfSome result (λ found. found.1 ≤ length line.now) }
{
    let word = word(line);
    match kind {
        SimpleType::Integer => Some((Value::Integer(integer_of(word)?), word.len())),
        SimpleType::Logical => Some((Value::Logical(logical_of(word)?), word.len())),
        SimpleType::Bits => Some((Value::Bits(bits_of(word)?), word.len())),
        SimpleType::Str(most) => {
            let (string, columns) = string_at(line, most)?;
            Some((Value::Str(fill(&string, most)), columns))
        }
        SimpleType::Reference(_) => unreachable!(),
    }
}

/// How many blanks a line begins with.
pub fn leading_blanks(line: &[u8]) -> usize
    ensures count { result ≡ prefix_len is_blank line.now }
    ensures within { result ≤ length line.now }
{
    line.iter().take_while(|c| **c == b' ').count()
}

/// What a line begins with up to a blank.
fn word(line: &[u8]) -> &[u8]
    ensures { result.now ≡ word line.now }
{
    &line[..word_length(line)]
}

fn word_length(line: &[u8]) -> usize
    ensures count { result ≡ length (word line.now) }
    ensures within { result ≤ length line.now }
{
    line.iter().take_while(|c| **c != b' ').count()
}

/// The INTEGER that an item is: digits with or without a sign, with a value that a 32-bit integer holds.
fn integer_of(item: &[u8]) -> Option<i32>
    ensures { result ≡ integer_of item.now }
{
    let Ok(text) = str::from_utf8(item) else {
        return None;
    };
    text.parse().ok()
}

/// The LOGICAL that an item is: `TRUE` or `FALSE`, each letter in either case.
fn logical_of(item: &[u8]) -> Option<bool>
    ensures { result ≡ logical_of item.now }
{
    if item.eq_ignore_ascii_case(b"TRUE") {
        Some(true)
    } else if item.eq_ignore_ascii_case(b"FALSE") {
        Some(false)
    } else {
        None
    }
}

/// The BITS that an item is: `#` and 1 to 8 hexadecimal digits, each letter in either case.
fn bits_of(item: &[u8]) -> Option<u32>
    ensures { result ≡ bits_of item.now }
{
    match item {
        [b'#', digits @ ..] => hexadecimal(digits),
        _ => None,
    }
}

/// The number of 1 to 8 hexadecimal digits.
fn hexadecimal(digits: &[u8]) -> Option<u32>
    ensures { result ≡ hexadecimal digits.now }
{
    if digits.len() > MOST_DIGITS || !are_hexadecimal(digits) {
        return None;
    }
    let Ok(text) = str::from_utf8(digits) else {
        return None;
    };
    u32::from_str_radix(text, 16).ok()
}

fn are_hexadecimal(digits: &[u8]) -> bool
    ensures { result ≡ list_all is_ascii_hexdigit digits.now }
{
    digits.iter().all(|c| c.is_ascii_hexdigit())
}

/// The string of 1 to `most` characters whose literal a line begins with, and how many columns the literal takes. Behind
/// it is a blank or the line's end.
fn string_at(line: &[u8], most: u16) -> Option<(Text, usize)>
    requires { length line.now ≤ 80 }
    ensures string { result ≡ string_at most line.now }
    ensures fits { IfSome result (λ found. length found.0 ≤ most) }
    ensures within { IfSome result (λ found. found.1 ≤ length line.now) }
{
    let (text, columns) = literal_at(line)?;
    if text.len() == 0 || text.len() > usize::from(most) || !ends_item(&line[columns..]) {
        return None;
    }
    Some((text, columns))
}

/// The text of the literal that a line begins with, and how many columns the literal takes, where it is closed.
fn literal_at(line: &[u8]) -> Option<(Text, usize)>
    requires { length line.now ≤ 80 }
    ensures parts { MatchOption result (literal_at line.now ≡ None)
        (λ found. literal_at line.now ≡ Some (found.0, drop found.1 line.now)) }
    ensures columns { IfSome result (λ found. found.1 ≡ length (literal found.0)) }
    ensures within { IfSome result (λ found. found.1 ≤ length line.now) }
{
    if !begins_with_quote(line) {
        return None;
    }
    let mut text = Text::new();
    let mut columns = 1;
    while let Some(character) = line.get(columns) {
        columns += 1;
        if *character == b'"' {
            if !begins_with_quote(&line[columns..]) {
                return Some((text, columns));
            }
            columns += 1;
        }
        text.push(*character);
    }
    None
}

fn begins_with_quote(line: &[u8]) -> bool
    ensures { result ≡ begins_with_quote line.now }
{
    matches!(line, [b'"', ..])
}

/// Whether an item that stands before this ends there.
fn ends_item(behind: &[u8]) -> bool
    ensures { result ≡ ends_item behind.now }
{
    matches!(behind, [] | [b' ', ..])
}
