ghost use Rattle.std.specs.Prelude.{◌≡◌, ℕ, ◌<◌, ◌≤◌, length, map, if◌then◌else◌, nat_lt, Some, None, IfOk, IsTrue, pos};
ghost use Rattle.std.specs.List.{prefix_len, list_all};
ghost use Rattle.std.specs.Char.{to_ascii_uppercase, is_ascii_digit, is_ascii_alphanumeric, is_ascii_hexdigit, digit_value};
ghost use Rattle.algolw_tree.specs.Chars.{name_char, spoils, value_from, hex_from, are_bits};
ghost use Rattle.std.specs.Option.{option_map};
ghost use Rattle.algolw_tree.specs.Symbols.{short, long};
ghost use Rattle.algolw_scanner.specs.Front.{bits_at, literal, quoted_at, front, name_at, number_at, symbol_at};
ghost use Rattle.algolw_scanner.specs.Seen.{seen};

use crate::words::word;
use algolw_tree::{Literal, Spelling, Symbol, TokenKind, Word};
use std::alloc::{AllocError, Global};
use value_ops::{Diagnostic, Name};

/// The largest number.
const LARGEST: u64 = 2_147_483_647;

/// The most hexadecimal digits of bits.
const MOST_BITS_DIGITS: usize = 8;

/// What stands at the front of a line, and what stands behind it.
pub enum Lexeme<'a> {
    /// A token, whose kind is written down apart.
    Token(&'a [u8]),
    /// The word that opens a comment.
    Comment(&'a [u8]),
    /// A blank.
    Blank(&'a [u8]),
    /// Nothing that can be read, and the number of the diagnostic.
    Fault(u8),
}

/// Whether a name may have this character behind its first.
fn is_name_byte(c: u8) -> bool
    ensures { result ≡ name_char c }
{
    c.is_ascii_alphanumeric() || c == b'_'
}

/// How many characters of a name stand at the front.
#[tactic(auto, using(crate::proofs::Runs::run_short))]
fn name_length(line: &[u8]) -> usize
    ensures value { result ≡ prefix_len name_char line.now }
    ensures short { result ≤ length line.now }
{
    line.iter().take_while(|c| is_name_byte(**c)).count()
}

/// How many digits stand at the front.
#[tactic(auto, using(crate::proofs::Runs::run_short))]
fn digits_length(line: &[u8]) -> usize
    ensures value { result ≡ prefix_len is_ascii_digit line.now }
    ensures short { result ≤ length line.now }
{
    line.iter().take_while(|c| c.is_ascii_digit()).count()
}

/// A name in capitals.
fn folded(spelled: &[u8]) -> Name
    requires { length spelled.now ≤ 80 }
    ensures { result ≡ map to_ascii_uppercase spelled.now }
{
    let mut name = Name::new();
    for c in spelled {
        name.push(c.to_ascii_uppercase());
    }
    name
}

/// A name, a word or the beginning of a comment.
#[tactic(auto, unfolding(crate::specs::Front::name_at))]
fn name_front<'a>(
    alloc: Global,
    line: &'a [u8],
    kind: &mut TokenKind,
) -> Result<Lexeme<'a>, AllocError>
    requires { length line.now ≤ 80 }
    ensures { IfOk result (λ found. seen kind.new found ≡ name_at line.now) }
{
    let (spelled, rest) = line.split_at(name_length(line));
    let name = folded(spelled);
    match word(name.as_slice()) {
        None => {
            *kind = TokenKind::Named(Spelling::new(alloc, &name)?);
            Ok(Lexeme::Token(rest))
        }
        Some(Word::Comment) => Ok(Lexeme::Comment(rest)),
        Some(word) => {
            *kind = TokenKind::Word(word);
            Ok(Lexeme::Token(rest))
        }
    }
}

/// The number of these digits, where it isn't too large.
fn value(digits: &[u8]) -> Option<i32>
    requires { IsTrue (list_all is_ascii_digit digits.now) }
    ensures { result ≡ (if nat_lt 2147483647 (value_from 0 digits.now) then None
        else Some (pos (value_from 0 digits.now))) }
{
    let mut value: u64 = 0;
    for digit in digits {
        value = value * 10 + u64::from(*digit - b'0');
        if value > LARGEST {
            return None;
        }
    }
    Some(value as i32)
}

/// Whether what stands here may not follow a number.
fn spoils_number(rest: &[u8]) -> bool
    ensures { result ≡ spoils rest.now }
{
    match rest {
        [] => false,
        [b'.', next, ..] => next.is_ascii_digit(),
        [c, ..] => c.is_ascii_alphabetic() || *c == b'_' || *c == b'\'',
    }
}

/// A number.
#[tactic(auto, unfolding(crate::specs::Front::number_at), using(crate::proofs::Runs::run_all))]
fn number_front<'a>(line: &'a [u8], kind: &mut TokenKind) -> Lexeme<'a>
    ensures { seen kind.new result ≡ number_at line.now }
{
    let (digits, rest) = line.split_at(digits_length(line));
    if spoils_number(rest) {
        return Lexeme::Fault(Diagnostic::NUMBER_NOT_AN_INTEGER);
    }
    match value(digits) {
        None => Lexeme::Fault(Diagnostic::INTEGER_TOO_LARGE),
        Some(n) => {
            *kind = TokenKind::Number(n);
            Lexeme::Token(rest)
        }
    }
}

/// The symbol of this character.
fn short_symbol(c: u8) -> Option<Symbol>
    ensures { result ≡ short c }
{
    match c {
        b'(' => Some(Symbol::Open),
        b')' => Some(Symbol::Close),
        b',' => Some(Symbol::Comma),
        b';' => Some(Symbol::Semicolon),
        b':' => Some(Symbol::Colon),
        b'=' => Some(Symbol::Equal),
        b'<' => Some(Symbol::Less),
        b'>' => Some(Symbol::Greater),
        b'+' => Some(Symbol::Plus),
        b'-' => Some(Symbol::Minus),
        b'*' => Some(Symbol::Star),
        b'/' => Some(Symbol::Slash),
        b'|' => Some(Symbol::Bar),
        b'.' => Some(Symbol::Stop),
        b'~' => Some(Symbol::Not),
        _ => None,
    }
}

/// The symbol of these two characters.
fn long_symbol(c: u8, d: u8) -> Option<Symbol>
    ensures { result ≡ long c d }
{
    match (c, d) {
        (b':', b'=') => Some(Symbol::Becomes),
        (b':', b':') => Some(Symbol::Bounds),
        (b'~', b'=') => Some(Symbol::NotEqual),
        (b'<', b'=') => Some(Symbol::LessEqual),
        (b'>', b'=') => Some(Symbol::GreaterEqual),
        (b'*', b'*') => Some(Symbol::Power),
        _ => None,
    }
}

/// A symbol, the longest that fits.
#[tactic(auto, unfolding(crate::specs::Front::symbol_at))]
fn symbol_front<'a>(line: &'a [u8], kind: &mut TokenKind) -> Lexeme<'a>
    ensures { seen kind.new result ≡ symbol_at line.now }
{
    if let [c, d, rest @ ..] = line {
        if let Some(symbol) = long_symbol(*c, *d) {
            *kind = TokenKind::Symbol(symbol);
            return Lexeme::Token(rest);
        }
    }
    match line {
        [] => Lexeme::Fault(Diagnostic::CHARACTER_NOT_USED),
        [c, rest @ ..] => match short_symbol(*c) {
            Some(symbol) => {
                *kind = TokenKind::Symbol(symbol);
                Lexeme::Token(rest)
            }
            None => Lexeme::Fault(Diagnostic::CHARACTER_NOT_USED),
        },
    }
}

/// What a literal says, and what stands behind it: the longest that is closed, from behind its first quote on.
fn literal(line: &[u8]) -> Option<(Literal, &[u8])>
    requires { length line.now ≤ 80 }
    ensures { option_map (λ x. (x.0, x.1.now)) result ≡ literal line.now }
{
    let mut said = Literal::new();
    let mut closed = None;
    let mut rest = line;
    while let [c, later @ ..] = rest {
        if *c == b'"' {
            closed = Some((said, later));
            match later {
                [b'"', more @ ..] => {
                    said.push(b'"');
                    rest = more;
                }
                _ => return closed,
            }
        } else {
            said.push(*c);
            rest = later;
        }
    }
    closed
}

/// A literal.
#[tactic(auto, unfolding(crate::specs::Front::quoted_at))]
fn quoted_front<'a>(
    alloc: Global,
    line: &'a [u8],
    kind: &mut TokenKind,
) -> Result<Lexeme<'a>, AllocError>
    requires { length line.now ≤ 80 }
    ensures { IfOk result (λ found. seen kind.new found ≡ quoted_at line.now) }
{
    let [_, inner @ ..] = line else {
        return Ok(Lexeme::Fault(Diagnostic::STRING_NOT_CLOSED));
    };
    match literal(inner) {
        None => Ok(Lexeme::Fault(Diagnostic::STRING_NOT_CLOSED)),
        Some((said, rest)) => match said.as_slice() {
            [] => match rest {
                [b'"', ..] => Ok(Lexeme::Fault(Diagnostic::STRING_NOT_CLOSED)),
                _ => Ok(Lexeme::Fault(Diagnostic::STRING_EMPTY)),
            },
            _ => {
                *kind = TokenKind::Quoted(Spelling::new(alloc, &said)?);
                Ok(Lexeme::Token(rest))
            }
        },
    }
}

/// How many letters and digits stand at the front.
#[tactic(auto, using(crate::proofs::Runs::run_short))]
fn alphanumeric_length(line: &[u8]) -> usize
    ensures value { result ≡ prefix_len is_ascii_alphanumeric line.now }
    ensures short { result ≤ length line.now }
{
    line.iter()
        .take_while(|c| c.is_ascii_alphanumeric())
        .count()
}

/// The value of a hexadecimal digit.
fn hex_digit(c: u8) -> u8
    requires { IsTrue (is_ascii_hexdigit c) }
    ensures { result ≡ digit_value c }
{
    match c {
        b'0'..=b'9' => c - b'0',
        b'A'..=b'F' => c - b'A' + 10,
        _ => c - b'a' + 10,
    }
}

/// The number that hexadecimal digits stand for.
fn hex_value(digits: &[u8]) -> u32
    requires few { length digits.now ≤ 8 }
    requires hex { IsTrue (list_all is_ascii_hexdigit digits.now) }
    ensures { result ≡ hex_from 0 digits.now }
{
    let mut value: u64 = 0;
    for c in digits {
        value = value * 16 + u64::from(hex_digit(*c));
    }
    value as u32
}

/// Whether all are hexadecimal digits.
fn are_hex(digits: &[u8]) -> bool
    ensures { result ≡ list_all is_ascii_hexdigit digits.now }
{
    digits.iter().all(|c| c.is_ascii_hexdigit())
}

/// Bits.
#[tactic(auto, unfolding(crate::specs::Front::bits_at))]
fn bits_front<'a>(line: &'a [u8], kind: &mut TokenKind) -> Lexeme<'a>
    ensures { seen kind.new result ≡ bits_at line.now }
{
    let [_, inner @ ..] = line else {
        return Lexeme::Fault(Diagnostic::BITS_ILL_FORMED);
    };
    let (digits, rest) = inner.split_at(alphanumeric_length(inner));
    if 0 < digits.len() && digits.len() <= MOST_BITS_DIGITS && are_hex(digits) {
        *kind = TokenKind::BitsLit(hex_value(digits));
        Lexeme::Token(rest)
    } else {
        Lexeme::Fault(Diagnostic::BITS_ILL_FORMED)
    }
}

/// What stands at the front of a line. Where it is a token, its kind is written down.
pub fn front<'a>(
    alloc: Global,
    line: &'a [u8],
    kind: &mut TokenKind,
) -> Result<Lexeme<'a>, AllocError>
    requires { length line.now ≤ 80 }
    ensures { IfOk result (λ found. seen kind.new found ≡ front line.now) }
{
    match line {
        [] => Ok(Lexeme::Fault(Diagnostic::CHARACTER_NOT_USED)),
        [b' ', rest @ ..] => Ok(Lexeme::Blank(rest)),
        [c, ..] => {
            if c.is_ascii_alphabetic() {
                name_front(alloc, line, kind)
            } else if c.is_ascii_digit() {
                Ok(number_front(line, kind))
            } else if *c == b'"' {
                quoted_front(alloc, line, kind)
            } else if *c == b'#' {
                Ok(bits_front(line, kind))
            } else {
                Ok(symbol_front(line, kind))
            }
        }
    }
}
