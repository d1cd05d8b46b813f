use crate::rows::{columns, see, unsigned, words};
use accounts_text::{AccountsError, accounts_bytes, read_accounts};
use deck_reader::{Account, Listed, Reader};
use std::alloc::{AllocError, Global};
use std::process::Abort;
use std::test::Fail;

/// A text, and the accounts that it states with their balances, or that it is bad. In a text `/` stands for a line feed, `<` for
/// a carriage return, `^` for a byte order mark and `~` for a byte that no text in UTF-8 has.
const TEXTS: &str = r#"[accounts]/ADA = 500/BOB = 20/|ADA 500 BOB 20
[accounts]/|
|bad
ADA = 5/|bad
[accounts]/ada = 5/|bad
[accounts]/ADA = -1/|bad
[accounts]/B = 1/A9 = 2/A = 3/AB = 4/|A 3 A9 2 AB 4 B 1
[accounts]</ADA = 0x10 # sixteen</"BOB" = 0o17/'CY' = 0b1/DEE = +7|ADA 16 BOB 15 CY 1 DEE 7
[accounts]/ADA = +0x10/|bad
accounts.ADA = 1_000/accounts."BOB" = 0|ADA 1000 BOB 0
accounts = { ADA = 5, BOB = 6 }|ADA 5 BOB 6
accounts = { # two/ADA = 5,/BOB = 6,/}|ADA 5 BOB 6
"accounts".ADA = 5|ADA 5
[accounts]/"A\x44\u0041" = 5/|ADA 5
^[accounts]/ADA = 5/|ADA 5
^^[accounts]/ADA = 5/|bad
[accounts]/ADA = 999999999/|ADA 999999999
[accounts]/ADA = 1000000000/|bad
[accounts]/ADA = 9223372036854775808/|bad
[accounts]/ADA = 5.0/|bad
[accounts]/ADA = "5"/|bad
[accounts]/ADA = 2026-11-30/|bad
[accounts]/ADA = [5]/|bad
[accounts]/ADA.B = 5/|bad
[accounts]/ABCDEFG8 = 1/|ABCDEFG8 1
[accounts]/ABCDEFGH9 = 1/|bad
[accounts]/9A = 1/|bad
[accounts]/A-B = 1/|bad
[accounts]/"" = 1/|bad
[accounts]/ADA = 5/ADA = 5/|bad
[accounts]/ADA = 5/[accounts]/BOB = 6/|bad
[accounts]/ADA = 5/[more]/|bad
[[accounts]]/ADA = 5/|bad
[ACCOUNTS]/ADA = 5/|bad
accounts = 5/|bad
[accounts]/ADA = 05/|bad
[accounts]/ADA = 5 # ~/|bad
"#;

/// How many accounts with names of eight letters a text has, to how many bytes it is filled up, and whether it states them.
const LENGTHS: &str = "\
0 65536 good
0 65537 bad
500 10511 good
500 65536 good
501 10532 bad
";

/// The bytes of a table's text.
fn bytes_of(alloc: Global, text: &str) -> Result<Vec<u8>, AllocError> {
    let mut bytes = Vec::new(alloc);
    for letter in text.as_bytes() {
        match *letter {
            b'/' => bytes.push(b'\n')?,
            b'<' => bytes.push(b'\r')?,
            b'^' => bytes.extend_from_slice(b"\xEF\xBB\xBF")?,
            b'~' => bytes.push(0xFF)?,
            other => bytes.push(other)?,
        }
    }
    Ok(bytes)
}

/// Whether these are the accounts, in this order, whose names and balances the words are.
fn are(rt: &impl Abort, accounts: &[Account], wanted: &str) -> bool {
    let mut wanted = wanted.split_whitespace();
    for account in accounts {
        let name = wanted.next().unwrap_or("");
        let balance = u64::from(unsigned(rt, wanted.next().unwrap_or("")));
        if account.name.as_slice() != name.as_bytes() || account.opening != balance {
            return false;
        }
    }
    wanted.next().is_none()
}

#[test]
fn accounts_of_texts(rt: HostRuntime) -> Result<(), Fail> {
    let alloc = rt.alloc();
    for row in TEXTS.lines() {
        let [text, wanted, ..] = columns(row);
        let bytes = bytes_of(alloc, text)?;
        match read_accounts(alloc, bytes.as_slice()) {
            Ok(accounts) => {
                see(&rt, row, are(&rt, accounts.as_slice(), wanted));
                let written = accounts_bytes(alloc, accounts.as_slice())?;
                let again = read_accounts(alloc, written.as_slice())?;
                see(&rt, row, are(&rt, again.as_slice(), wanted));
            }
            Err(error) => {
                let is_bad = error == AccountsError::BadAccounts;
                see(&rt, row, is_bad && wanted == "bad");
            }
        }
    }
    Ok(())
}

/// A text of so many accounts, with a comment behind them up to so many bytes.
fn text_of(alloc: Global, accounts: u32, length: usize) -> Result<Vec<u8>, AllocError> {
    let mut text = Vec::from_slice(alloc, b"[accounts]\n")?;
    for number in 0..accounts {
        let line = format!(in alloc; "ABCDE{number:03} = 999999999\n")?;
        text.extend_from_slice(line.as_bytes())?;
    }
    for _ in text.len()..length {
        text.push(b'#')?;
    }
    Ok(text)
}

#[test]
fn longest_texts_of_accounts(rt: HostRuntime) -> Result<(), Fail> {
    let alloc = rt.alloc();
    for row in LENGTHS.lines() {
        let [many, length, wanted, ..] = words(row);
        let many = unsigned(&rt, many);
        let length = unsigned(&rt, length) as usize;
        let text = text_of(alloc, many, length)?;
        see(&rt, row, text.len() == length);
        match read_accounts(alloc, text.as_slice()) {
            Ok(accounts) => {
                see(
                    &rt,
                    row,
                    wanted == "good" && accounts.len() == many as usize,
                );
                let written = accounts_bytes(alloc, accounts.as_slice())?;
                // A night's closing balances can be the next night's opening balances.
                see(&rt, row, written.len() <= 10_511);
            }
            Err(_) => see(&rt, row, wanted == "bad"),
        }
    }
    Ok(())
}

#[test]
fn written_accounts(rt: HostRuntime) -> Result<(), Fail> {
    let alloc = rt.alloc();
    let accounts = read_accounts(alloc, b"accounts = { BOB = 20, ADA = 495 }")?;
    let text = accounts_bytes(alloc, accounts.as_slice())?;
    assert_eq!(rt;
        text.as_slice(),
        b"[accounts]\nADA = 495\nBOB = 20\n".as_slice()
    );
    Ok(())
}

#[test]
fn a_batch_with_given_accounts(rt: HostRuntime) -> Result<(), Fail> {
    let alloc = rt.alloc();
    let accounts = read_accounts(alloc, b"[accounts]\nADA = 500\nBOB = 20\n")?;
    let mut reader = Reader::with_accounts(alloc, Listed::from_vec(accounts))?;
    reader.feed(b"%ACCOUNT EVE 9\n%JOB A,EVE\nBEGIN END.\n%JOB B,BOB\nBEGIN END.\n")?;
    let batch = reader.finish()?;
    assert_eq!(rt; batch.stray, 1);
    assert!(rt; are(&rt, batch.accounts.as_slice(), "ADA 500 BOB 20"));
    let mut owners = batch.jobs.as_slice().iter().map(|job| job.account);
    assert_eq!(rt; owners.next(), Some(None));
    assert_eq!(rt; owners.next(), Some(Some(1)));
    assert_eq!(rt; owners.next(), None);
    Ok(())
}
