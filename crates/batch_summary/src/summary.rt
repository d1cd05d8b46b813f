ghost use Rattle.std.specs.Prelude.{◌≡◌, ◌++◌, IfOk, OnOk, decimal};
ghost use Rattle.batch_summary.specs.Summary.{entry, heading, summary};

use crate::tally::Tally;
use itoa::Buffer;
use std::alloc::{AllocError, Global};

/// The summary of the listing of a batch that was made from a seed, with this many jobs, where its sections come to
/// this tally.
pub fn summary_of(
    alloc: Global,
    seed: u32,
    jobs: u32,
    sections: &Tally,
) -> Result<Vec<u8>, AllocError>
    ensures { IfOk result (λ text. text.items ≡ summary seed jobs sections.now) }
{
    let mut out = Vec::new(alloc);
    push_heading(&mut out, seed, jobs)?;
    push_entry(&mut out, b"NORMAL ", u64::from(sections.normal))?;
    push_entry(&mut out, b"FAULT ", u64::from(sections.fault))?;
    push_entry(&mut out, b"LIMIT ", u64::from(sections.limit))?;
    push_entry(&mut out, b"DIAGNOSED ", u64::from(sections.diagnosed))?;
    push_entry(&mut out, b"REFUSED ", u64::from(sections.refused))?;
    push_entry(&mut out, b"CHARGES ", sections.charges)?;
    push_entry(&mut out, b"LISTING BYTES ", sections.bytes)?;
    Ok(out)
}

/// Adds the line with what the batch was made from.
fn push_heading(out: &mut Vec<u8>, seed: u32, jobs: u32) -> Result<(), AllocError>
    ensures { OnOk result (out.new.items ≡ out.old.items ++ heading seed jobs) }
{
    out.extend_from_slice(b"MADE ")?;
    out.extend_from_slice(Buffer::new().format(seed).as_bytes())?;
    push_entry(out, b" JOBS ", u64::from(jobs))
}

/// Adds a line with a number behind a text.
fn push_entry(out: &mut Vec<u8>, text: &[u8], number: u64) -> Result<(), AllocError>
    ensures { OnOk result (out.new.items ≡ out.old.items ++ entry text.now number) }
{
    out.extend_from_slice(text)?;
    out.extend_from_slice(Buffer::new().format(number).as_bytes())?;
    out.extend_from_slice(b"\n")
}
