ghost use Rattle.std.specs.Prelude.{◌≡◌, ◌++◌, OnOk, decimal};
ghost use Rattle.algolw_meaning.specs.Texts.{line};
ghost use Rattle.account_statements.specs.Statement.{balance_line, decision_line, no_account, opening_line, outcome_text, charge_text};

use account_book::{Counts, Decision, charge_of};
use itoa::Buffer;
use std::alloc::AllocError;

/// Adds the decimal text of a number.
fn push_number(out: &mut Vec<u8>, number: u64) -> Result<(), AllocError>
    ensures { OnOk result (out.new.items ≡ out.old.items ++ decimal number) }
{
    let mut buffer = Buffer::new();
    out.extend_from_slice(buffer.format(number).as_bytes())?;
    Ok(())
}

/// Adds a text and a line feed.
fn push_line(out: &mut Vec<u8>, text: &[u8]) -> Result<(), AllocError>
    ensures { OnOk result (out.new.items ≡ out.old.items ++ line text.now) }
{
    out.extend_from_slice(text)?;
    out.push(b'\n')?;
    Ok(())
}

/// Adds the first line.
pub fn push_opening(out: &mut Vec<u8>, name: &[u8], opening: u64) -> Result<(), AllocError>
    ensures { OnOk result (out.new.items ≡ out.old.items ++ opening_line name.now opening) }
{
    out.extend_from_slice(b"STATEMENT ")?;
    out.extend_from_slice(name)?;
    out.extend_from_slice(b" OPENING ")?;
    push_number(out, opening)?;
    push_line(out, b"")
}

/// Adds the last line.
pub fn push_balance(out: &mut Vec<u8>, balance: u64) -> Result<(), AllocError>
    ensures { OnOk result (out.new.items ≡ out.old.items ++ balance_line balance) }
{
    out.extend_from_slice(b"CLOSING ")?;
    push_number(out, balance)?;
    push_line(out, b"")
}

/// Adds the line that says that no account has the name.
pub fn push_no_account(out: &mut Vec<u8>, name: &[u8]) -> Result<(), AllocError>
    ensures { OnOk result (out.new.items ≡ out.old.items ++ no_account name.now) }
{
    out.extend_from_slice(b"STATEMENT ")?;
    out.extend_from_slice(name)?;
    push_line(out, b": NO ACCOUNT")
}

/// Adds the line of a job.
pub fn push_decision(
    out: &mut Vec<u8>,
    number: u64,
    name: &[u8],
    balance: u64,
    decision: &Decision,
) -> Result<(), AllocError>
    ensures { OnOk result (out.new.items ≡ out.old.items ++ decision_line number name.now balance decision.now) }
{
    push_number(out, number)?;
    out.extend_from_slice(b" ")?;
    out.extend_from_slice(name)?;
    push_outcome(out, balance, decision)?;
    push_line(out, b"")
}

/// Adds what stands behind the job's name.
fn push_outcome(out: &mut Vec<u8>, balance: u64, decision: &Decision) -> Result<(), AllocError>
    ensures { OnOk result (out.new.items ≡ out.old.items ++ outcome_text balance decision.now) }
{
    match decision {
        Decision::Flawed(flaw) => {
            out.extend_from_slice(b" REFUSED ")?;
            push_number(out, u64::from(flaw.number()))
        }
        Decision::Refused {
            reserve,
            balance: left,
        } => {
            out.extend_from_slice(b" REFUSED: RESERVE ")?;
            push_number(out, *reserve)?;
            out.extend_from_slice(b", BALANCE ")?;
            push_number(out, *left)
        }
        Decision::Charged(counts) => push_charge(out, balance, *counts),
    }
}

/// Adds what a job used, its charge and what that leaves.
fn push_charge(out: &mut Vec<u8>, balance: u64, counts: Counts) -> Result<(), AllocError>
    ensures { OnOk result (out.new.items ≡ out.old.items ++ charge_text balance counts) }
{
    let charge = charge_of(counts);
    out.extend_from_slice(b" CARDS ")?;
    push_number(out, u64::from(counts.cards))?;
    out.extend_from_slice(b" STEPS ")?;
    push_number(out, u64::from(counts.steps))?;
    out.extend_from_slice(b" LINES ")?;
    push_number(out, u64::from(counts.lines))?;
    out.extend_from_slice(b" CHARGE ")?;
    push_number(out, charge)?;
    out.extend_from_slice(b" BALANCE ")?;
    push_number(out, balance.saturating_sub(charge))
}
