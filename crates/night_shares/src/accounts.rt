ghost use Rattle.std.specs.Prelude.{◌≡◌, ◌||◌, ◌++◌, ◌∷◌, [], List, Err, IfOk, IfErr, IfSome, IfNone, OnOk, true, pos};
ghost use Rattle.std.specs.List.{list_all};
ghost use Rattle.batch_io.specs.Causes.{Rose};
ghost use Rattle.deck_reader.specs.declared.batch.Account.{Account};
ghost use Rattle.deck_reader.specs.Forms.{is_digit};
ghost use Rattle.toml.specs.Data.{Members, integer};
ghost use Rattle.toml.specs.View.{table_view, view};
ghost use Rattle.accounts_text.specs.Text.{is_account, is_account_name, is_capital, under_accounts};
ghost use Rattle.night_shares.specs.Accounts.{HasAccounts, HasText, IsBadAccounts, NightAccountsText, StateNightAccounts};
ghost use Rattle.night_shares.specs.Stops.{AccountsCause, TextCause};

use crate::stop::Stop;
use accounts_text::AccountsError;
use batch_io::Source;
use deck_reader::{Account, Name};
use std::alloc::{AllocError, Global};
use toml::{Table, Value};

/// How many bytes are read at a time.
const PIECE: usize = 4096;

/// The most bytes of a night's accounts file: some 3,000,000 accounts.
const MOST_BYTES: usize = 67_108_864;

/// The most bytes of a name.
const MOST_NAME: usize = 8;

/// The largest balance.
const LARGEST_BALANCE: u64 = 999_999_999;

/// The accounts of a night, from an accounts file of any number of accounts, which is read to its end, unless it is too long.
pub fn night_accounts<A: Source>(alloc: Global, src: &mut A) -> Result<Vec<Account>, Stop>
    ensures ok { IfOk result (λ accounts. HasAccounts (A.left src.old) (A.left src.new) accounts.items) }
    ensures kept { OnOk result (A.faults src.new ≡ A.faults src.old) }
    ensures cause { IfErr result (λ stop. AccountsCause stop (A.faults src.old) (A.faults src.new) (IsBadAccounts (A.left src.old) (A.left src.new))) }
{
    let text = read_text(alloc, src)?;
    let accounts = read_accounts(alloc, text.as_slice())?;
    Ok(accounts)
}

/// Reads a text to its end, or so far that it is longer than an accounts file.
fn read_text<A: Source>(alloc: Global, src: &mut A) -> Result<Vec<u8>, Stop>
    ensures ok { IfOk result (λ text. HasText (A.left src.old) (A.left src.new) text.items) }
    ensures kept { OnOk result (A.faults src.new ≡ A.faults src.old) }
    ensures cause { IfErr result (λ stop. TextCause stop (A.faults src.old) (A.faults src.new)) }
{
    let mut text = Vec::new(alloc);
    let mut buffer = [0; PIECE];
    while text.len() <= MOST_BYTES {
        let count = src.read(&mut buffer)?;
        if count == 0 {
            return Ok(text);
        }
        text.extend_from_slice(&buffer[..count])?;
    }
    Ok(text)
}

/// The accounts that a text states, however many, in the order of their names' bytes. It is refused as bad exactly where it isn't such
/// a text, or has over 67,108,864 bytes.
pub fn read_accounts(alloc: Global, bytes: &[u8]) -> Result<Vec<Account>, AccountsError>
    ensures ok { IfOk result (λ v. NightAccountsText bytes.now v.items) }
    ensures bad { result ≡ Err AccountsError.BadAccounts
        → (accounts : List Account) → NightAccountsText bytes.now accounts → ⊥ }
{
    if bytes.len() > MOST_BYTES {
        return Err(AccountsError::BadAccounts);
    }
    let document = match toml::table_from_slice(alloc, bytes) {
        Ok(document) => document,
        Err(error) if error.is_memory() => return Err(AccountsError::NoMemory),
        Err(_) => return Err(AccountsError::BadAccounts),
    };
    match accounts_table(&document) {
        Some(table) => accounts_in(alloc, table),
        None => Err(AccountsError::BadAccounts),
    }
}

/// The table at the key `accounts`, where the document has that key alone.
fn accounts_table(document: &Table) -> Option<&Table>
    ensures some { IfSome result (λ t. table_view document.now ≡ under_accounts (table_view t.now)) }
    ensures none { IfNone result ((members : Members) → table_view document.now ≡ under_accounts members → ⊥) }
{
    if document.len() != 1 {
        return None;
    }
    document.get("accounts")?.as_table()
}

/// The accounts that a table states.
fn accounts_in(alloc: Global, table: &Table) -> Result<Vec<Account>, AccountsError>
    ensures ok { IfOk result (λ v. StateNightAccounts (table_view table.now) v.items) }
    ensures bad { result ≡ Err AccountsError.BadAccounts
        → (accounts : List Account) → StateNightAccounts (table_view table.now) accounts → ⊥ }
{
    let mut accounts = Vec::new(alloc);
    'entries: for (name, value) in table.iter() {
        match account_at(name.as_str(), value) {
            Some(account) => add(&mut accounts, account)?,
            None => return Err(AccountsError::BadAccounts),
        }
    }
    Ok(accounts)
}

/// Adds an account at the end.
fn add(accounts: &mut Vec<Account>, account: Account) -> Result<(), AllocError>
    ensures { OnOk result (accounts.new.items ≡ accounts.old.items ++ account ∷ []) }
{
    accounts.push(account)?;
    Ok(())
}

/// The account of this key and this value, where they state one.
fn account_at(name: &str, value: &Value) -> Option<Account>
    ensures some { IfSome result (λ a. (a.name ≡ name.now) × (view value.now ≡ integer (pos a.opening)) × (is_account a ≡ true)) }
    ensures none { IfNone result ((a : Account) → a.name ≡ name.now → view value.now ≡ integer (pos a.opening) → is_account a ≡ true → ⊥) }
{
    let bytes = name.as_bytes();
    if !is_account_name(bytes) {
        return None;
    }
    let Value::Integer(number) = value else {
        return None;
    };
    let opening = u64::try_from(*number).ok()?;
    if opening > LARGEST_BALANCE {
        return None;
    }
    Some(Account {
        name: Name::from_slice(bytes),
        opening,
    })
}

/// Whether this is a capital letter and at most 7 more capitals or digits.
fn is_account_name(name: &[u8]) -> bool
    ensures { result ≡ is_account_name name.now }
{
    match name {
        [] => false,
        [first, rest @ ..] => is_capital(*first)
            && rest.len() < MOST_NAME
            && are_capitals_or_digits(rest),
    }
}

fn are_capitals_or_digits(bytes: &[u8]) -> bool
    ensures { result ≡ list_all (λ d. is_capital d || is_digit d) bytes.now }
{
    bytes.iter().all(|b| is_capital(*b) || is_digit(*b))
}

fn is_capital(byte: u8) -> bool
    ensures { result ≡ is_capital byte }
{
    byte.is_ascii_uppercase()
}

fn is_digit(byte: u8) -> bool
    ensures { result ≡ is_digit byte }
{
    byte.is_ascii_digit()
}
