ghost use Rattle.std.specs.Prelude.{◌≡◌, ◌++◌, ◌+◌, ◌<◌, ◌^◌, OnOk, IfOk, codes, decimal};
ghost use Rattle.std.specs.List.{flat_map};
ghost use Rattle.night_shares.specs.Plan.{account_row, chain_row, front_rows, last_row, refused_row, row};

use deck_reader::{Account, Flaw, Job};
use itoa::Buffer;
use std::alloc::{AllocError, Global};

/// The plan's first lines: how many chains there are, and the accounts.
pub fn front_rows(alloc: Global, chains: u64, accounts: &[Account]) -> Result<Vec<u8>, AllocError>
    ensures { IfOk result (λ text. text.items ≡ front_rows chains accounts.now) }
{
    let mut text = Vec::new(alloc);
    push_numbered(&mut text, b"NIGHT 1 CHAINS ", chains)?;
    for account in accounts {
        push_account_row(&mut text, account)?;
    }
    Ok(text)
}

/// Adds an account's line.
fn push_account_row(text: &mut Vec<u8>, account: &Account) -> Result<(), AllocError>
    ensures { OnOk result (text.new.items ≡ text.old.items ++ account_row account.now) }
{
    text.extend_from_slice(b"ACCOUNT ")?;
    text.extend_from_slice(account.name.as_slice())?;
    push_numbered(text, b" ", account.opening)
}

/// Adds the line of a job that is the next one of this chain, which is numbered from 1.
pub fn push_chain_row(text: &mut Vec<u8>, chain: u64) -> Result<(), AllocError>
    ensures { OnOk result (text.new.items ≡ text.old.items ++ row (decimal chain)) }
{
    push_numbered(text, b"", chain)
}

/// Adds the line of a job that is refused for a flaw, and is in no chain.
pub fn push_refused_row(text: &mut Vec<u8>, flaw: Flaw, job: &Job) -> Result<(), AllocError>
    ensures { OnOk result (text.new.items ≡ text.old.items ++ refused_row flaw job.now) }
{
    text.extend_from_slice(b"REFUSED ")?;
    text.extend_from_slice(Buffer::new().format(flaw.number()).as_bytes())?;
    text.extend_from_slice(b" ")?;
    text.extend_from_slice(job.name.as_slice())?;
    text.extend_from_slice(b" ")?;
    text.extend_from_slice(job.account_name.as_slice())?;
    text.extend_from_slice(b"\n")
}

/// The first line of a window.
pub fn window_row(alloc: Global, number: u64) -> Result<Vec<u8>, AllocError>
    ensures { IfOk result (λ text. text.items ≡ row (codes "WINDOW " ++ decimal number)) }
{
    let mut text = Vec::new(alloc);
    push_numbered(&mut text, b"WINDOW ", number)?;
    Ok(text)
}

/// The plan's last line: how many cards are stray.
pub fn last_row(alloc: Global, stray: u64) -> Result<Vec<u8>, AllocError>
    ensures { IfOk result (λ text. text.items ≡ last_row stray) }
{
    let mut text = Vec::new(alloc);
    push_numbered(&mut text, b"STRAY ", stray)?;
    Ok(text)
}

/// Adds a line with a number behind these bytes.
fn push_numbered(text: &mut Vec<u8>, front: &[u8], number: u64) -> Result<(), AllocError>
    ensures { OnOk result (text.new.items ≡ text.old.items ++ row (front.now ++ decimal number)) }
{
    text.extend_from_slice(front)?;
    text.extend_from_slice(Buffer::new().format(number).as_bytes())?;
    text.extend_from_slice(b"\n")
}
