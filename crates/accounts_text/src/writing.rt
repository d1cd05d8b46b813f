ghost use Rattle.std.specs.Prelude.{◌≡◌, IfOk, pos, string_bytes, true};
ghost use Rattle.toml.specs.Data.{integer};
ghost use Rattle.toml.specs.View.{table_view, view};
ghost use Rattle.accounts_text.specs.Text.{AccountsList, AreAccounts, is_account, members_of, under_accounts};

use deck_reader::Account;
use std::alloc::{AllocError, Global};
use toml::{Table, Value};

/// A text that states these accounts, with a line for each. It has no limit of length: of 500 accounts it has at most 10,511
/// bytes.
pub fn accounts_bytes(alloc: Global, accounts: &[Account]) -> Result<Vec<u8>, AllocError>
    requires { AreAccounts accounts.now }
    ensures { IfOk result (λ v. AccountsList v.items accounts.now) }
{
    let document = document_of(alloc, accounts)?;
    match toml::table_to_string(alloc, &document) {
        Ok(text) => Ok(text.into_bytes()),
        Err(_) => Err(AllocError),
    }
}

/// The document of these accounts.
fn document_of(alloc: Global, accounts: &[Account]) -> Result<Table, AllocError>
    requires { AreAccounts accounts.now }
    ensures { IfOk result (λ t. table_view t ≡ under_accounts (members_of accounts.now)) }
{
    let table = table_of(alloc, accounts)?;
    let mut document = Table::new(alloc);
    let key = String::from_str(alloc, "accounts")?;
    document.insert(key, Value::from(table))?;
    Ok(document)
}

/// The table of these accounts.
fn table_of(alloc: Global, accounts: &[Account]) -> Result<Table, AllocError>
    requires { AreAccounts accounts.now }
    ensures { IfOk result (λ t. table_view t ≡ members_of accounts.now) }
{
    let mut table = Table::new(alloc);
    for account in accounts {
        let name = name_of(alloc, account)?;
        table.insert(name, balance_of(account))?;
    }
    Ok(table)
}

/// An account's name as a key.
fn name_of(alloc: Global, account: &Account) -> Result<String, AllocError>
    requires { is_account account.now ≡ true }
    ensures { IfOk result (λ s. string_bytes s ≡ account.now.name) }
{
    match std::str::from_utf8(account.name.as_slice()) {
        Ok(name) => String::from_str(alloc, name),
        Err(_) => unreachable!(),
    }
}

/// An account's balance as a value.
#[tactic(auto, using(crate::proofs::Names::opening_small))]
fn balance_of(account: &Account) -> Value
    requires { is_account account.now ≡ true }
    ensures { view result ≡ integer (pos account.now.opening) }
{
    Value::from(account.opening as i64)
}
