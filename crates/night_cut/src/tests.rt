use crate::folder::Folder;
use batch_io::MemSource;
use night_shares::{Stop, cut_night};
use std::alloc::{AllocError, Global};
use std::fs;
use std::test::Fail;

/// An accounts file.
const ACCOUNTS: &[u8] = b"[accounts]\nADA = 5000\nBOB = 300\n";

/// A library, three jobs of which the second has no account, and stray cards before and behind them.
const CARDS: &[u8] =
    b"NOTE\n%LIBRARY SUMS\nPROCEDURE P; WRITE(1);\n%job A,ADA,LIB=SUMS\r\nBEGIN P END.\n%EOJ\nNOTE\n\
%JOB B,CY\nBEGIN END.\n%JOB C , BOB\nBEGIN\tEND.";

/// The plan of these cards, cut into two chains.
const PLAN: &str =
    "NIGHT 1 CHAINS 2\nACCOUNT ADA 5000\nACCOUNT BOB 300\nWINDOW 1\n1\nREFUSED 6 B CY\n2\nSTRAY 2\n";

/// The accounts file of the second chain.
const OPENINGS: &str = "[accounts]\nBOB = 300\n";

/// The part of the first chain.
const FIRST: &str = "%LIBRARY SUMS\nPROCEDURE P; WRITE(1);\n%job A,ADA,LIB=SUMS\r\nBEGIN P END.\n";

/// That of the second.
const SECOND: &str = "%LIBRARY SUMS\nPROCEDURE P; WRITE(1);\n%JOB C , BOB\nBEGIN\tEND.\n";

/// A source of these bytes, which hands out five at a time.
fn source(alloc: Global, bytes: &[u8]) -> Result<MemSource, AllocError> {
    let bytes = Vec::from_slice(alloc, bytes)?;
    Ok(MemSource::new(bytes, 5, Vec::new(alloc), None))
}

#[test]
fn files_of_a_night(rt: HostRuntime) -> Result<(), Fail> {
    let alloc = rt.alloc();
    let mut folder = Folder::new(&rt, alloc, "night")?;
    let mut accounts = source(alloc, ACCOUNTS)?;
    let mut cards = source(alloc, CARDS)?;
    cut_night(alloc, 2, &mut accounts, &mut cards, &mut folder)?;
    assert_eq!(rt; fs::read_to_string(&rt, "night/plan")?.as_str(), PLAN);
    assert_eq!(rt;
        fs::read_to_string(&rt, "night/2/accounts.toml")?.as_str(),
        OPENINGS
    );
    assert_eq!(rt; fs::read_to_string(&rt, "night/1/1.cards")?.as_str(), FIRST);
    assert_eq!(rt;
        fs::read_to_string(&rt, "night/2/1.cards")?.as_str(),
        SECOND
    );
    Ok(())
}

#[test]
fn folders_that_are_there(rt: HostRuntime) -> Result<(), Fail> {
    let alloc = rt.alloc();
    fs::create_dir(&rt, "there")?;
    assert!(rt; Folder::new(&rt, alloc, "there").is_err());
    let mut folder = Folder::new(&rt, alloc, "other")?;
    fs::create_dir(&rt, "other/1")?;
    let mut accounts = source(alloc, ACCOUNTS)?;
    let mut cards = source(alloc, CARDS)?;
    let cut = cut_night(alloc, 2, &mut accounts, &mut cards, &mut folder);
    assert_eq!(rt; cut, Err(Stop::WriteFault));
    Ok(())
}
