ghost use Rattle.std.specs.Prelude.{◌≡◌, ◌++◌, OnOk, length};
ghost use Rattle.batch_listing.specs.Texts.{heading, title, flawed_line, refused_line, closing_title, closing_line, balance_lines, stray_line};

use deck_reader::{Account, Flaw, Job};
use job_runner::{push_line, push_number};
use std::alloc::AllocError;

/// The first line of a listing.
#[tactic(auto, unfolding(crate::specs::Texts::heading))]
pub fn heading() -> &'static [u8]
    ensures { result.now ≡ heading }
{
    b"ALGOL W BATCH\n"
}

/// Adds the first lines of a job's section.
pub fn push_title(out: &mut Vec<u8>, job: &Job) -> Result<(), AllocError>
    ensures { OnOk result (out.new.items ≡ out.old.items ++ title job.now) }
{
    push_line(out, b"")?;
    out.extend_from_slice(b"JOB ")?;
    push_number(out, u64::from(job.number))?;
    out.extend_from_slice(b" ")?;
    out.extend_from_slice(job.name.as_slice())?;
    out.extend_from_slice(b" ")?;
    push_line(out, job.account_name.as_slice())
}

/// Adds the line of a job that is refused for its flaw.
pub fn push_flawed(out: &mut Vec<u8>, flaw: Flaw) -> Result<(), AllocError>
    ensures { OnOk result (out.new.items ≡ out.old.items ++ flawed_line flaw) }
{
    out.extend_from_slice(b"REFUSED ")?;
    push_number(out, u64::from(flaw.number()))?;
    out.extend_from_slice(b": ")?;
    push_line(out, flaw.text())
}

/// Adds the line of a job that is refused for its balance.
pub fn push_refused(out: &mut Vec<u8>, reserve: u64, balance: u64) -> Result<(), AllocError>
    ensures { OnOk result (out.new.items ≡ out.old.items ++ refused_line reserve balance) }
{
    out.extend_from_slice(b"REFUSED: RESERVE ")?;
    push_number(out, reserve)?;
    out.extend_from_slice(b", BALANCE ")?;
    push_number(out, balance)?;
    push_line(out, b"")
}

/// Adds the lines above the accounts.
#[tactic(auto, unfolding(crate::specs::Texts::closing_title))]
pub fn push_closing_title(out: &mut Vec<u8>) -> Result<(), AllocError>
    ensures { OnOk result (out.new.items ≡ out.old.items ++ closing_title) }
{
    push_line(out, b"")?;
    push_line(out, b"CLOSING BALANCES")
}

/// Adds a line for each account, with these balances.
pub fn push_balances(
    out: &mut Vec<u8>,
    accounts: &[Account],
    balances: &[u64],
) -> Result<(), AllocError>
    requires { length balances.now ≡ length accounts.now }
    ensures { OnOk result (out.new.items ≡ out.old.items ++ balance_lines accounts.now balances.now) }
{
    for (i, account) in accounts.iter().enumerate() {
        push_balance(out, account, balances[i])?;
    }
    Ok(())
}

/// Adds the line of an account with this balance.
fn push_balance(out: &mut Vec<u8>, account: &Account, balance: u64) -> Result<(), AllocError>
    ensures { OnOk result (out.new.items ≡ out.old.items ++ closing_line account.now balance) }
{
    out.extend_from_slice(account.name.as_slice())?;
    out.extend_from_slice(b" OPENING ")?;
    push_number(out, account.opening)?;
    out.extend_from_slice(b" CHARGES ")?;
    push_number(out, account.opening.saturating_sub(balance))?;
    out.extend_from_slice(b" CLOSING ")?;
    push_number(out, balance)?;
    push_line(out, b"")
}

/// Adds the line with the number of stray cards.
#[tactic(auto, unfolding(crate::specs::Texts::stray_line))]
pub fn push_stray(out: &mut Vec<u8>, stray: u32) -> Result<(), AllocError>
    ensures { OnOk result (out.new.items ≡ out.old.items ++ stray_line stray) }
{
    out.extend_from_slice(b"STRAY CARDS ")?;
    push_number(out, u64::from(stray))?;
    push_line(out, b"")
}
