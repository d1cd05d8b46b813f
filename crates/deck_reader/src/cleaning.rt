ghost use Rattle.std.specs.Prelude.{◌≡◌, ◌==◌, ◌≤◌, ◌∷◌, ◌++◌, if◌then◌else◌, length, OnOk};
ghost use Rattle.deck_reader.specs.Cards.{without_return, without_tabs, with_tildes, cleaned};

use short_text::without_blanks;
use std::alloc::AllocError;

/// Puts the card of a piece into `card`, in place of what stood there: the piece without a carriage return at its end,
/// with a blank for each tab and a tilde for each not sign, and then without the blanks at its end.
pub fn clean_into(card: &mut Vec<u8>, piece: &[u8]) -> Result<(), AllocError>
    ensures { OnOk result (card.new.items ≡ cleaned piece.now) }
{
    card.clear();
    put_turned(card, without_return(piece))?;
    let kept = without_blanks(card).len();
    card.truncate(kept);
    Ok(())
}

/// The bytes without a carriage return at their end.
#[tactic(auto, using(crate::proofs::Returns::without_return_behind))]
fn without_return(piece: &[u8]) -> &[u8]
    ensures { result.now ≡ without_return piece.now }
{
    let Some((last, front)) = piece.split_last() else {
        return piece;
    };
    if *last == b'\r' { front } else { piece }
}

/// Puts the bytes behind what stands in `card`, with a blank for each tab and a tilde for each not sign.
fn put_turned(card: &mut Vec<u8>, bytes: &[u8]) -> Result<(), AllocError>
    ensures { OnOk result (card.new.items ≡ card.old.items ++ with_tildes (without_tabs bytes.now)) }
{
    let mut rest = bytes;
    while let Some((first, behind)) = rest.split_first() {
        let (turned, left) = turn_first(*first, behind);
        card.push(turned)?;
        rest = left;
    }
    Ok(())
}

/// What the first byte turns into, and what stands behind the bytes that it took: the not sign takes two.
fn turn_first(first: u8, behind: &[u8]) -> (u8, &[u8])
    ensures turned { with_tildes (without_tabs (first ∷ behind.now)) ≡
        result.0 ∷ with_tildes (without_tabs result.1.now) }
    ensures shorter { length result.1.now ≤ length behind.now }
{
    if first == 0xC2
        && let Some((second, rest)) = behind.split_first()
        && *second == 0xAC
    {
        (b'~', rest)
    } else {
        (without_tab(first), behind)
    }
}

/// A blank for a tab.
fn without_tab(byte: u8) -> u8
    ensures { result ≡ (if byte == 9 then 32 else byte) }
{
    if byte == b'\t' { b' ' } else { byte }
}
