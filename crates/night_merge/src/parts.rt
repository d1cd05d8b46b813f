ghost use Rattle.std.specs.Prelude.{◌≡◌, ◌++◌, ◌<◌, ℕ, List, true, codes, decimal, IfOk, IfSome, IsSomeAnd, length, map, reverse};
ghost use Rattle.std.specs.List.{list_all};
ghost use Rattle.listing_parts.specs.Sections.{begins};
ghost use Rattle.night_merge.specs.Closing.{HasOwn, IsLower, Settled};
ghost use Rattle.night_merge.specs.Parts.{IsPart};
ghost use Rattle.night_merge.specs.Texts.{chain_lines, numbered, numbered_each};

use crate::closing::{Chain, settle};
use crate::texts::{behind, push_number};
use deck_reader::Account;
use listing_parts::taken_apart;
use std::alloc::{AllocError, Global};

/// What the sections of a part's listing have behind their numbers, in order; or nothing, where the text isn't the listing of so many jobs on
/// the accounts of a chain. Where it is, `left` has what it leaves in place of what it began with.
pub fn part_rests<'a>(
    alloc: Global,
    text: &'a [u8],
    count: usize,
    place: Chain,
    accounts: &[Account],
    left: &mut [u64],
) -> Result<Option<Vec<&'a [u8]>>, AllocError>
    requires there { length left.old ≡ length accounts.now }
    requires within { place.chain < place.chains }
    ensures part { (rests : List (List ℕ)) (before after : ℕ → ℕ) → length rests ≡ count → HasOwn place.chains place.chain left.old before → IsLower (length left.old) after before
        → IsPart text.now rests (chain_lines place.chains place.chain before after 0 accounts.now)
        → IfOk result (λ read. IsSomeAnd read (λ own. map (λ r. r.now) own.items ≡ rests) × Settled place.chains place.chain after left.old left.new) }
    ensures counted { IfOk result (λ read. IfSome read (λ own. length own.items ≡ count)) }
{
    let Some(parts) = taken_apart(alloc, text)? else {
        return Ok(None);
    };
    if parts.sections.len() != count {
        return Ok(None);
    }
    let Some(rests) = rests_of(alloc, parts.sections.as_slice())? else {
        return Ok(None);
    };
    if !settle(alloc, place, accounts, left, parts.closing)? {
        return Ok(None);
    }
    Ok(Some(rests))
}

/// What these sections, the last one first, have behind their numbers, which go up from 1: in order. Nothing, where they have other numbers.
fn rests_of<'a>(alloc: Global, sections: &[&'a [u8]]) -> Result<Option<Vec<&'a [u8]>>, AllocError>
    ensures rests { (rests : List (List ℕ)) → list_all (begins 32) rests ≡ true → map (λ s. s.now) sections.now ≡ reverse (numbered_each 1 rests)
        → IfOk result (λ read. IsSomeAnd read (λ own. map (λ r. r.now) own.items ≡ rests)) }
    ensures counted { IfOk result (λ read. IfSome read (λ own. length own.items ≡ length sections.now)) }
{
    let mut rests = Vec::new(alloc);
    for (at, section) in sections.iter().enumerate() {
        let Some(rest) = rest_of(alloc, *section, (sections.len() - at) as u64)? else {
            return Ok(None);
        };
        rests.push(rest)?;
    }
    rests.reverse();
    Ok(Some(rests))
}

/// What a section under this number has behind it.
fn rest_of<'a>(
    alloc: Global,
    section: &'a [u8],
    number: u64,
) -> Result<Option<&'a [u8]>, AllocError>
    ensures { (rest : List ℕ) → begins 32 rest ≡ true → section.now ≡ numbered number rest → IfOk result (λ read. IsSomeAnd read (λ r. r.now ≡ rest)) }
{
    let head = head_of(alloc, number)?;
    match behind(section, head.as_slice()) {
        Some(rest) if begins_with_blank(rest) => Ok(Some(rest)),
        _ => Ok(None),
    }
}

/// What stands before the names on the title of a section with this number.
pub fn head_of(alloc: Global, number: u64) -> Result<Vec<u8>, AllocError>
    ensures { IfOk result (λ head. head.items ≡ codes "\nJOB " ++ decimal number) }
{
    let mut head = Vec::from_slice(alloc, b"\nJOB ")?;
    push_number(&mut head, number)?;
    Ok(head)
}

fn begins_with_blank(text: &[u8]) -> bool
    ensures { result ≡ begins 32 text.now }
{
    match text {
        [first, ..] => *first == b' ',
        [] => false,
    }
}
