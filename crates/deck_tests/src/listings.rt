//! The code of decks, as it is listed.
use crate::cases::see;
use crate::reading::read;
use crate::{call_code, statement_code, value_code};
use code_listing::job_listing;
use std::alloc::Global;
use std::process::Abort;
use std::test::Fail;

/// Sees that each job of a batch has its listing.
fn check_listings(rt: &impl Abort, alloc: Global, decks: &str, listings: &str) -> Result<(), Fail> {
    let batch = read(alloc, decks.as_bytes())?;
    let mut wanted = listings.split("\n\n");
    for job in batch.jobs.as_slice() {
        let listing = job_listing(alloc, job)?;
        let text = listing.as_str();
        see(rt, text, text.strip_suffix("\n\n") == wanted.next());
    }
    see(
        rt,
        "each listing has its job",
        wanted.next() == Some("") && wanted.next().is_none(),
    );
    Ok(())
}

/// One or more decks for each kind of phrase, instruction and actual that checked programs have.
#[test]
fn code_is_listed(rt: HostRuntime) -> Result<(), Fail> {
    let alloc = rt.alloc();
    check_listings(&rt, alloc, value_code::DECKS, value_code::LISTINGS)?;
    check_listings(&rt, alloc, statement_code::DECKS, statement_code::LISTINGS)?;
    check_listings(&rt, alloc, call_code::DECKS, call_code::LISTINGS)
}
