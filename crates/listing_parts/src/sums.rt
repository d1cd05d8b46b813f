ghost use Rattle.std.specs.Prelude.{◌≡◌, ◌<◌, ◌≤◌, ◌^◌, ◌==◌, ℕ, Some, not, decimal, length};
ghost use Rattle.std.specs.List.{prefix_len};
ghost use Rattle.listing_parts.specs.Sections.{IsSum};
ghost use Rattle.listing_parts.specs.Words.{before_blank, behind_blank};

/// How many lines were printed, by a sum.
pub fn printed_on(line: &[u8]) -> Option<u64>
    ensures { (printed : ℕ) → IsSum line.now printed → result ≡ Some printed }
{
    let cards = behind_blank(line);
    let steps = behind_blank(behind_blank(cards));
    let lines = behind_blank(behind_blank(steps));
    number_of(before_blank(lines))
}

/// What stands before the first blank, or all where there is none.
fn before_blank(text: &[u8]) -> &[u8]
    ensures { result.now ≡ before_blank text.now }
{
    &text[..count_before_blank(text)]
}

/// What stands behind the first blank, or nothing where there is none.
fn behind_blank(text: &[u8]) -> &[u8]
    ensures { result.now ≡ behind_blank text.now }
{
    let at = count_before_blank(text);
    if at == text.len() {
        return &text[at..];
    }
    &text[at + 1..]
}

/// How many bytes stand before the first blank.
fn count_before_blank(text: &[u8]) -> usize
    ensures count { result ≡ prefix_len (λ b. not (b == 32)) text.now }
    ensures within { result ≤ length text.now }
{
    text.iter().take_while(|b| **b != b' ').count()
}

/// The number that these digits state.
fn number_of(digits: &[u8]) -> Option<u64>
    ensures { (n : ℕ) → n < 2 ^ 64 → digits.now ≡ decimal n → result ≡ Some n }
{
    match std::str::from_utf8(digits) {
        Ok(text) => text.parse::<u64>().ok(),
        Err(_) => None,
    }
}
