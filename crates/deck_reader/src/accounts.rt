ghost use Rattle.std.specs.Prelude.{◌≡◌, ◌≤◌, ◌<◌, ◌+◌, if◌then◌else◌, IfOk, IfSome, IsSome, IsTrue, OnOk, length, bytes_eq};
ghost use Rattle.std.specs.List.{list_any};
ghost use Rattle.deck_reader.specs.Batch.{account_of, account_on, with_account};

use crate::batch::Account;
use crate::forms;
use crate::listed::Listed;
use std::alloc::AllocError;

/// The most accounts of a batch.
const MOST_ACCOUNTS: usize = 500;

/// The number of the account with this name.
pub fn find_account(accounts: &[Account], name: &[u8]) -> Option<u32>
    requires { length accounts.now ≤ 500 }
    ensures { result ≡ account_of accounts.now name.now }
{
    match place_of(accounts, name) {
        Some(at) => Some(at as u32),
        None => None,
    }
}

fn place_of(accounts: &[Account], name: &[u8]) -> Option<usize>
    ensures place { result ≡ account_of accounts.now name.now }
    ensures within { IfSome result (λ at. at < length accounts.now) }
{
    accounts.iter().position(|a| has_name(a, name))
}

fn is_open(accounts: &[Account], name: &[u8]) -> bool
    ensures { result ≡ list_any (λ a. bytes_eq a.name name.now) accounts.now }
{
    accounts.iter().any(|a| has_name(a, name))
}

fn has_name(account: &Account, name: &[u8]) -> bool
    ensures { result ≡ bytes_eq account.now.name name.now }
{
    account.name.as_slice() == name
}

/// Opens the account that a card states, where there is one, its name is new, and there is room; none where the accounts are
/// given. The answer is whether an account was opened.
pub fn open(accounts: &mut Listed<Account>, given: bool, card: &[u8]) -> Result<bool, AllocError>
    requires { length accounts.old ≤ 500 }
    ensures ok { OnOk result (accounts.new ≡ (if given then accounts.old else with_account accounts.old (account_on card.now))) }
    ensures one { IfOk result (λ opened. length accounts.new ≡ length accounts.old + (if opened then 1 else 0)) }
    ensures stated { IfOk result (λ opened. IsTrue opened → IsSome (account_on card.now)) }
    ensures few { length accounts.new ≤ 500 }
{
    if given {
        return Ok(false);
    }
    let Some(stated) = forms::account_card(card) else {
        return Ok(false);
    };
    if accounts.len() >= MOST_ACCOUNTS || is_open(accounts.as_slice(), stated.name.as_slice()) {
        return Ok(false);
    }
    accounts.push(Account {
        name: stated.name,
        opening: stated.balance,
    })?;
    Ok(true)
}
