ghost use Rattle.std.specs.Prelude.{◌≡◌, ◌++◌, ℕ, List, OnOk, IfOk, IsSomeAnd, flat_map, map};
ghost use Rattle.listing_parts.specs.Lines.{IsUpward, text_up};
ghost use Rattle.listing_parts.specs.Sections.{IsListing};
ghost use Rattle.listing_cut.specs.Rows.{row, rows};

use itoa::Buffer;
use listing_parts::taken_apart;
use std::alloc::{AllocError, Global};

/// How many bytes each section of a listing has, in order, from the empty line over its title on, and then its closing lines: a line
/// for each. Of a text that is no listing it gives nothing, or lines of which nothing is promised.
pub fn listing_rows(alloc: Global, text: &[u8]) -> Result<Option<Vec<u8>>, AllocError>
    ensures { (lines closing : List (List ℕ)) (sections : List (List (List ℕ))) → IsUpward text.now lines → IsListing lines closing sections
        → IfOk result (λ found. IsSomeAnd found (λ out. out.items ≡ rows (map text_up sections) (text_up closing))) }
{
    let Some(parts) = taken_apart(alloc, text)? else {
        return Ok(None);
    };
    let mut sections = parts.sections;
    sections.reverse();
    let mut out = Vec::new(alloc);
    push_rows(&mut out, sections.as_slice())?;
    push_row(&mut out, parts.closing)?;
    Ok(Some(out))
}

/// Adds a line for each of these parts.
fn push_rows(out: &mut Vec<u8>, parts: &[&[u8]]) -> Result<(), AllocError>
    ensures { OnOk result (out.new.items ≡ out.old.items ++ flat_map row (map (λ p. p.now) parts.now)) }
{
    for part in parts {
        push_row(out, *part)?;
    }
    Ok(())
}

/// Adds how many bytes a part has.
fn push_row(out: &mut Vec<u8>, part: &[u8]) -> Result<(), AllocError>
    ensures { OnOk result (out.new.items ≡ out.old.items ++ row part.now) }
{
    let mut buffer = Buffer::new();
    out.extend_from_slice(buffer.format(part.len() as u64).as_bytes())?;
    out.extend_from_slice(b"\n")
}
