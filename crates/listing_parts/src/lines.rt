ghost use Rattle.std.specs.Prelude.{◌≡◌, ◌==◌, ◌≤◌, ◌<◌, ℕ, List, not, IfSome, length, drop};
ghost use Rattle.std.specs.List.{suffix_len};
ghost use Rattle.listing_parts.specs.Lines.{IsUpward};
ghost use Rattle.listing_parts.specs.Reads.{ReadsLine, Leaves};
ghost use Rattle.listing_parts.specs.Sections.{begins, is_card, is_digit, ends_in_digit};
ghost use Rattle.listing_parts.specs.Upwards.{above_all, above_one, above_text};
ghost use Rattle.listing_parts.specs.Kinds.{is_of};

/// Lines that are known by their first byte, or by their last.
#[derive(Clone, Copy, PartialEq, Eq)]
pub enum Kind {
    /// A card of a deck, which begins with a blank or a digit of its number.
    Card,
    /// A diagnostic.
    Diagnostic,
    /// A line of a dump, which begins with a blank.
    Dump,
    /// An account's balance, which ends with a digit.
    Balance,
}

impl Kind {
    /// Whether a line is of this kind.
    pub fn has(self, line: &[u8]) -> bool
        ensures { result ≡ is_of self line.now }
    {
        match self {
            Kind::Card => begins_with_blank_or_digit(line),
            Kind::Diagnostic => begins(line, b'D'),
            Kind::Dump => begins(line, b' '),
            Kind::Balance => ends_in_digit(line),
        }
    }
}

/// Whether the line begins with this byte.
pub fn begins(line: &[u8], byte: u8) -> bool
    ensures { result ≡ begins byte line.now }
{
    match line {
        [first, ..] => *first == byte,
        [] => false,
    }
}

fn begins_with_blank_or_digit(line: &[u8]) -> bool
    ensures { result ≡ is_card line.now }
{
    match line {
        [first, ..] => *first == b' ' || is_digit(*first),
        [] => false,
    }
}

fn ends_in_digit(line: &[u8]) -> bool
    ensures { result ≡ ends_in_digit line.now }
{
    match line {
        [.., last] => is_digit(*last),
        [] => false,
    }
}

fn is_digit(byte: u8) -> bool
    ensures { result ≡ is_digit byte }
{
    byte.is_ascii_digit()
}

/// The text above the last line, and that line without its line feed.
#[tactic(auto, using(crate::proofs::Texts::no_line, crate::proofs::Texts::no_feed))]
pub fn last_line(text: &[u8]) -> Option<(&[u8], &[u8])>
    ensures line { (lines : List (List ℕ)) → IsUpward text.now lines → ReadsLine lines result }
    ensures shorter { IfSome result (λ r. length r.0.now < length text.now) }
{
    let [body @ .., last] = text else {
        return None;
    };
    if *last != b'\n' {
        return None;
    }
    let start = body.len() - count_behind_feed(body);
    Some((&body[..start], &body[start..]))
}

/// How many bytes stand behind the last line feed.
fn count_behind_feed(bytes: &[u8]) -> usize
    ensures count { result ≡ suffix_len (λ b. not (b == 10)) bytes.now }
    ensures within { result ≤ length bytes.now }
{
    bytes.iter().rev().take_while(|b| **b != b'\n').count()
}

/// The text above its last line, where that is of this kind.
fn above_one(text: &[u8], kind: Kind) -> Option<&[u8]>
    ensures above { (lines : List (List ℕ)) → IsUpward text.now lines → Leaves (above_one (is_of kind) lines) result }
    ensures shorter { IfSome result (λ r. length r.now < length text.now) }
{
    let (above, line) = last_line(text)?;
    if !kind.has(line) {
        return None;
    }
    Some(above)
}

/// The text above its last lines of this kind.
pub fn above_all(text: &[u8], kind: Kind) -> &[u8]
    ensures above { (lines : List (List ℕ)) → IsUpward text.now lines → IsUpward result.now (above_all (is_of kind) lines) }
    ensures within { length result.now ≤ length text.now }
{
    let mut above = text;
    while let Some(rest) = above_one(above, kind) {
        above = rest;
    }
    above
}

/// The text above its last lines, so many of them; there may be fewer, and then nothing stands above.
pub fn above_lines(text: &[u8], count: u64) -> &[u8]
    ensures above { (lines : List (List ℕ)) → IsUpward text.now lines → IsUpward result.now (drop count lines) }
    ensures within { length result.now ≤ length text.now }
{
    let mut above = text;
    let mut left = count;
    while left > 0
        && let Some((rest, _)) = last_line(above)
    {
        above = rest;
        left -= 1;
    }
    above
}

/// The text above a last line of this text.
pub fn above_text<'a>(text: &'a [u8], wanted: &[u8]) -> Option<&'a [u8]>
    ensures above { (lines : List (List ℕ)) → IsUpward text.now lines → Leaves (above_text wanted.now lines) result }
    ensures shorter { IfSome result (λ r. length r.now < length text.now) }
{
    let (above, line) = last_line(text)?;
    if line != wanted {
        return None;
    }
    Some(above)
}
