use std::process::Abort;

/// Sees that what a row of a table says holds.
pub fn see(rt: &impl Abort, row: &str, holds: bool) {
    assert!(rt; holds, "{row}");
}

/// The words of a table's row, at most 8, and behind them empty ones.
pub fn words(row: &str) -> [&str; 8] {
    let mut texts = row.split_whitespace();
    let first = texts.next().unwrap_or("");
    let second = texts.next().unwrap_or("");
    let third = texts.next().unwrap_or("");
    let fourth = texts.next().unwrap_or("");
    let fifth = texts.next().unwrap_or("");
    let sixth = texts.next().unwrap_or("");
    let seventh = texts.next().unwrap_or("");
    let eighth = texts.next().unwrap_or("");
    [first, second, third, fourth, fifth, sixth, seventh, eighth]
}

/// The columns of a table's row, at most 8, which have bars between them, and behind them empty ones.
pub fn columns(row: &str) -> [&str; 8] {
    let mut texts = row.split('|');
    let first = texts.next().unwrap_or("");
    let second = texts.next().unwrap_or("");
    let third = texts.next().unwrap_or("");
    let fourth = texts.next().unwrap_or("");
    let fifth = texts.next().unwrap_or("");
    let sixth = texts.next().unwrap_or("");
    let seventh = texts.next().unwrap_or("");
    let eighth = texts.next().unwrap_or("");
    [first, second, third, fourth, fifth, sixth, seventh, eighth]
}

/// The number that a word is, from 0 on.
pub fn unsigned(rt: &impl Abort, word: &str) -> u32 {
    match word.parse() {
        Ok(number) => number,
        Err(_) => panic!(rt; "no number: {word}"),
    }
}
