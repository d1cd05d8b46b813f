ghost use Rattle.std.specs.Prelude.{◌≡◌, ◌∷◌, ◌<◌, ℕ, List, true, length, IfSome};
ghost use Rattle.listing_parts.specs.Lines.{IsUpward};
ghost use Rattle.listing_parts.specs.Reads.{Leaves};
ghost use Rattle.listing_parts.specs.Sections.{begins, IsSum};
ghost use Rattle.listing_parts.specs.Upwards.{above_head, above_deck, above_dump, above_ending, above_sum, above_closing};

use crate::lines::{Kind, above_all, above_lines, above_text, begins, last_line};
use crate::sums::printed_on;

/// The text above the last section.
pub fn above_section(text: &[u8]) -> Option<&[u8]>
    ensures refused { (last : List ℕ) (up : List (List ℕ)) → IsUpward text.now (last ∷ up) → begins 82 last ≡ true → Leaves (above_head up) result }
    ensures summed { (last : List ℕ) (up : List (List ℕ)) (printed : ℕ) → IsUpward text.now (last ∷ up) → IsSum last printed → Leaves (above_sum printed up) result }
    ensures shorter { IfSome result (λ r. length r.now < length text.now) }
{
    let (above, last) = last_line(text)?;
    if begins(last, b'R') {
        return above_head(above);
    }
    above_sum(above, printed_on(last)?)
}

/// The text above what stands over the sum of a job that printed so many lines.
fn above_sum(text: &[u8], printed: u64) -> Option<&[u8]>
    ensures above { (lines : List (List ℕ)) → IsUpward text.now lines → Leaves (above_sum printed lines) result }
    ensures shorter { IfSome result (λ r. length r.now < length text.now) }
{
    match above_ending(text) {
        Some(above) => above_deck(above_text(above_lines(above, printed), b"OUTPUT")?),
        None => above_deck(above_all(text, Kind::Diagnostic)),
    }
}

/// The text above the ending of a run, and its dump.
fn above_ending(text: &[u8]) -> Option<&[u8]>
    ensures above { (lines : List (List ℕ)) → IsUpward text.now lines → Leaves (above_ending lines) result }
    ensures shorter { IfSome result (λ r. length r.now < length text.now) }
{
    match above_text(text, b"ENDED NORMALLY") {
        Some(above) => Some(above),
        None => above_dump(text),
    }
}

/// The text above a dump and the ending over it.
fn above_dump(text: &[u8]) -> Option<&[u8]>
    ensures above { (lines : List (List ℕ)) → IsUpward text.now lines → Leaves (above_dump lines) result }
    ensures shorter { IfSome result (λ r. length r.now < length text.now) }
{
    let ending = above_text(above_all(text, Kind::Dump), b"POST-MORTEM")?;
    let (above, _) = last_line(ending)?;
    Some(above)
}

/// The text above the cards of a deck and the head of its section.
fn above_deck(text: &[u8]) -> Option<&[u8]>
    ensures above { (lines : List (List ℕ)) → IsUpward text.now lines → Leaves (above_deck lines) result }
    ensures shorter { IfSome result (λ r. length r.now < length text.now) }
{
    above_head(above_all(text, Kind::Card))
}

/// The text above the title of a section and the empty line over it.
fn above_head(text: &[u8]) -> Option<&[u8]>
    ensures above { (lines : List (List ℕ)) → IsUpward text.now lines → Leaves (above_head lines) result }
    ensures shorter { IfSome result (λ r. length r.now < length text.now) }
{
    let (above, title) = last_line(text)?;
    if !begins(title, b'J') {
        return None;
    }
    above_text(above, b"")
}

/// The text above the closing lines.
pub fn above_closing(text: &[u8]) -> Option<&[u8]>
    ensures above { (lines : List (List ℕ)) → IsUpward text.now lines → Leaves (above_closing lines) result }
    ensures shorter { IfSome result (λ r. length r.now < length text.now) }
{
    let (balances, _) = last_line(text)?;
    above_text(
        above_text(above_all(balances, Kind::Balance), b"CLOSING BALANCES")?,
        b"",
    )
}
