ghost use Rattle.std.specs.Prelude.{◌≡◌, map};
ghost use Rattle.algolw_tree.specs.Words.{word_of, word_in};
ghost use Rattle.std.specs.Option.{option_map};
ghost use Rattle.std.specs.List.{find};
ghost use Rattle.std.specs.Str.{bytes_eq};
ghost use Rattle.algolw_scanner.specs.Beginnings.{HasWords};

use algolw_tree::{WORDS, Word};

/// Whether a word is spelled so. Most have another length.
#[tactic(auto, using(crate::proofs::Spelled::other_length))]
fn is_spelled(word: &str, name: &[u8]) -> bool
    ensures { result ≡ bytes_eq word.now name.now }
{
    let spelling = word.as_bytes();
    if spelling.len() == name.len() {
        spelling == name
    } else {
        false
    }
}

/// The first entry of the table that is spelled so.
fn entry_word(table: &[(&str, Word)], name: &[u8]) -> Option<Word>
    ensures { result ≡ option_map (λ e. e.1) (find (λ e. bytes_eq e.0.now name.now) table.now) }
{
    table
        .iter()
        .find(|entry| is_spelled(entry.0, name))
        .map(|entry| entry.1)
}

/// The word that the table spells so.
fn word_in(table: &[(&str, Word)], name: &[u8]) -> Option<Word>
    ensures { result ≡ word_in (map (λ e. (e.0.now, e.1)) table.now) name.now }
{
    entry_word(table, name)
}

/// The part of the table with the words that begin so.
fn beginning(first: u8) -> &'static [(&'static str, Word)]
    ensures { HasWords first (map (λ e. (e.0.now, e.1)) result.now) }
{
    match first {
        b'A' => &WORDS[..5],
        b'B' => &WORDS[5..7],
        b'C' => &WORDS[7..10],
        b'D' => &WORDS[10..12],
        b'E' => &WORDS[12..14],
        b'F' => &WORDS[14..17],
        b'G' => &WORDS[17..19],
        b'I' => &WORDS[19..22],
        b'L' => &WORDS[22..24],
        b'N' => &WORDS[24..25],
        b'O' => &WORDS[25..27],
        b'P' => &WORDS[27..28],
        b'R' => &WORDS[28..33],
        b'S' => &WORDS[33..38],
        b'T' => &WORDS[38..41],
        b'U' => &WORDS[41..42],
        b'V' => &WORDS[42..43],
        b'W' => &WORDS[43..],
        b'H' => &[],
        b'J' => &[],
        b'K' => &[],
        b'M' => &[],
        b'Q' => &[],
        b'X' => &[],
        b'Y' => &[],
        b'Z' => &[],
        _ => &WORDS,
    }
}

/// The word that is spelled so, in capitals.
#[tactic(auto, unfolding(algolw_tree::specs::Words::word_of))]
pub fn word(name: &[u8]) -> Option<Word>
    ensures { result ≡ word_of name.now }
{
    match name {
        [] => None,
        [first, ..] => word_in(beginning(*first), name),
    }
}
