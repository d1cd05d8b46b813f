ghost use Rattle.std.specs.Prelude.{◌≡◌, ◌++◌, ◌∷◌, [], ℕ, List, None, IfOk, IsSomeAnd, IfSome, map, codes};
ghost use Rattle.listing_parts.specs.Lines.{IsUpward, text_up};
ghost use Rattle.listing_parts.specs.Sections.{IsListing, AreSections};

use crate::section::{above_closing, above_section};
use std::alloc::{AllocError, Global};

/// The first line of a listing.
const HEADING: &[u8] = b"ALGOL W BATCH\n";

/// The parts of a listing.
#[derive(Drop)]
pub struct Parts<'a> {
    /// The sections, the last one first, each from the empty line over its title to its last line feed.
    pub sections: Vec<&'a [u8]>,
    /// The closing lines, from the empty line over their title on.
    pub closing: &'a [u8],
}

/// The parts of a listing, or nothing where the text is none. A text that is a listing has one closing and one list of sections, whatever its jobs print.
pub fn taken_apart(alloc: Global, text: &[u8]) -> Result<Option<Parts<'_>>, AllocError>
    ensures { (lines closing : List (List ℕ)) (sections : List (List (List ℕ))) → IsUpward text.now lines → IsListing lines closing sections
        → IfOk result (λ parted. IsSomeAnd parted (λ parts. (map (λ s. s.now) parts.sections.items ≡ map text_up sections) × (parts.closing.now ≡ text_up closing))) }
{
    let Some(above) = above_closing(text) else {
        return Ok(None);
    };
    let closing = &text[above.len()..];
    match sections_of(alloc, above)? {
        Some(sections) => Ok(Some(Parts { sections, closing })),
        None => Ok(None),
    }
}

/// The sections below the heading, the last one first.
fn sections_of(alloc: Global, text: &[u8]) -> Result<Option<Vec<&[u8]>>, AllocError>
    ensures { (lines : List (List ℕ)) (sections : List (List (List ℕ))) → IsUpward text.now lines → AreSections lines sections
        → IfOk result (λ parted. IsSomeAnd parted (λ v. map (λ s. s.now) v.items ≡ map text_up sections)) }
{
    let mut sections = Vec::new(alloc);
    let mut rest = text;
    while rest != HEADING {
        let Some(above) = above_section(rest) else {
            return Ok(None);
        };
        sections.push(&rest[above.len()..])?;
        rest = above;
    }
    Ok(Some(sections))
}
