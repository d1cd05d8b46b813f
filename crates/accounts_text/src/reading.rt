ghost use Rattle.std.specs.Prelude.{◌≡◌, ◌||◌, ◌++◌, ◌∷◌, [], List, Err, IfOk, IfSome, IfNone, OnOk, true, pos};
ghost use Rattle.std.specs.List.{list_all};
ghost use Rattle.deck_reader.specs.declared.batch.Account.{Account};
ghost use Rattle.deck_reader.specs.Forms.{is_digit};
ghost use Rattle.toml.specs.Data.{Members, integer};
ghost use Rattle.toml.specs.View.{table_view, view};
ghost use Rattle.accounts_text.specs.Text.{AccountsText, StateAccounts, is_account, is_account_name, is_capital, under_accounts};

use deck_reader::{Account, Name};
use std::alloc::{AllocError, Global};
use toml::{Table, Value};

/// The most bytes of a text of accounts.
const MOST_BYTES: usize = 65_536;

/// The most accounts of a batch.
const MOST_ACCOUNTS: usize = 500;

/// The most bytes of a name.
const MOST_NAME: usize = 8;

/// The largest balance.
const LARGEST_BALANCE: u64 = 999_999_999;

/// Why a text gives no accounts.
#[derive(Clone, Copy, Debug, PartialEq, Eq)]
pub enum AccountsError {
    /// It doesn't state any.
    BadAccounts,
    /// Memory was wanting.
    NoMemory,
}

impl From<AllocError> for AccountsError {
    ghost use Rattle.std.specs.Prelude.{◌≡◌};
    ghost use Rattle.accounts_text.specs.declared.reading.AccountsError.TheVariants.{NoMemory};

    ghost from_gives = { λ _ e. e ≡ NoMemory };

    fn from(_: AllocError) -> AccountsError {
        AccountsError::NoMemory
    }
}

/// The accounts that a text states, in the order of their names' bytes. It is refused as bad exactly where it states no list
/// of accounts.
pub fn read_accounts(alloc: Global, bytes: &[u8]) -> Result<Vec<Account>, AccountsError>
    ensures ok { IfOk result (λ v. AccountsText bytes.now v.items) }
    ensures bad { result ≡ Err AccountsError.BadAccounts
        → (accounts : List Account) → AccountsText bytes.now accounts → ⊥ }
{
    if bytes.len() > MOST_BYTES {
        return Err(AccountsError::BadAccounts);
    }
    let document = match toml::table_from_slice(alloc, bytes) {
        Ok(document) => document,
        Err(error) if error.is_memory() => return Err(AccountsError::NoMemory),
        Err(_) => return Err(AccountsError::BadAccounts),
    };
    match accounts_table(&document) {
        Some(table) => accounts_in(alloc, table),
        None => Err(AccountsError::BadAccounts),
    }
}

/// The table at the key `accounts`, where the document has that key alone.
fn accounts_table(document: &Table) -> Option<&Table>
    ensures some { IfSome result (λ t. table_view document.now ≡ under_accounts (table_view t.now)) }
    ensures none { IfNone result ((members : Members) → table_view document.now ≡ under_accounts members → ⊥) }
{
    if document.len() != 1 {
        return None;
    }
    document.get("accounts")?.as_table()
}

/// The accounts that a table states.
fn accounts_in(alloc: Global, table: &Table) -> Result<Vec<Account>, AccountsError>
    ensures ok { IfOk result (λ v. StateAccounts (table_view table.now) v.items) }
    ensures bad { result ≡ Err AccountsError.BadAccounts
        → (accounts : List Account) → StateAccounts (table_view table.now) accounts → ⊥ }
{
    if table.len() > MOST_ACCOUNTS {
        return Err(AccountsError::BadAccounts);
    }
    let mut accounts = Vec::new(alloc);
    'entries: for (name, value) in table.iter() {
        match account_at(name.as_str(), value) {
            Some(account) => add(&mut accounts, account)?,
            None => return Err(AccountsError::BadAccounts),
        }
    }
    Ok(accounts)
}

/// Adds an account at the end.
fn add(accounts: &mut Vec<Account>, account: Account) -> Result<(), AllocError>
    ensures { OnOk result (accounts.new.items ≡ accounts.old.items ++ account ∷ []) }
{
    accounts.push(account)?;
    Ok(())
}

/// The account of this key and this value, where they state one.
fn account_at(name: &str, value: &Value) -> Option<Account>
    ensures some { IfSome result (λ a. (a.name ≡ name.now) × (view value.now ≡ integer (pos a.opening)) × (is_account a ≡ true)) }
    ensures none { IfNone result ((a : Account) → a.name ≡ name.now → view value.now ≡ integer (pos a.opening) → is_account a ≡ true → ⊥) }
{
    let bytes = name.as_bytes();
    if !is_account_name(bytes) {
        return None;
    }
    let Value::Integer(number) = value else {
        return None;
    };
    let opening = u64::try_from(*number).ok()?;
    if opening > LARGEST_BALANCE {
        return None;
    }
    Some(Account {
        name: Name::from_slice(bytes),
        opening,
    })
}

/// Whether this is a capital letter and at most 7 more capitals or digits.
fn is_account_name(name: &[u8]) -> bool
    ensures { result ≡ is_account_name name.now }
{
    match name {
        [] => false,
        [first, rest @ ..] => is_capital(*first)
            && rest.len() < MOST_NAME
            && are_capitals_or_digits(rest),
    }
}

fn are_capitals_or_digits(bytes: &[u8]) -> bool
    ensures { result ≡ list_all (λ d. is_capital d || is_digit d) bytes.now }
{
    bytes.iter().all(|b| is_capital(*b) || is_digit(*b))
}

fn is_capital(byte: u8) -> bool
    ensures { result ≡ is_capital byte }
{
    byte.is_ascii_uppercase()
}

fn is_digit(byte: u8) -> bool
    ensures { result ≡ is_digit byte }
{
    byte.is_ascii_digit()
}
