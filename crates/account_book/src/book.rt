ghost use Rattle.std.specs.Prelude.{◌≡◌, ◌≤◌, Some, IfOk, length, slice_index};
ghost use Rattle.deck_reader.specs.Batch.{account_of};
ghost use Rattle.account_book.specs.BookView.{BookView, openings_of};
ghost use Rattle.account_book.specs.Places.{lowered};

use deck_reader::{Account, Name, find_account};
use std::alloc::{AllocError, Global};
use std::marker::Model;

/// The accounts of a batch, and the balance of each. An account goes by its number, its place among the accounts.
#[derive(Drop)]
pub struct Book {
    accounts: Vec<Account>,
    balances: Vec<u64>,
}

impl Model for Book {
    ghost use Rattle.std.specs.Prelude.{◌≡◌, ◌≤◌, length};
    ghost use Rattle.account_book.specs.BookView.{BookView};

    ghost Value = { BookView };

    ghost view = { λ b. record { accounts = b.accounts.items; balances = b.balances.items } };

    ghost invariant = { λ b. (length b.balances.items ≡ length b.accounts.items) × (length b.accounts.items ≤ 500) };
}

impl Book {
    /// The book in which the balance of each account is its opening.
    pub fn open(alloc: Global, accounts: &[Account]) -> Result<Book, AllocError>
        requires { length accounts.now ≤ 500 }
        ensures { IfOk result (λ b. b ≡ record { accounts = accounts.now; balances = openings_of accounts.now }) }
    {
        let balances = accounts.iter().map(|a| a.opening).collect(alloc)?;
        let accounts = Vec::from_slice(alloc, accounts)?;
        Ok(Book { accounts, balances })
    }

    /// The accounts, with their openings.
    pub fn accounts(&self) -> &[Account]
        ensures { result.now ≡ self.now.accounts }
    {
        self.accounts.as_slice()
    }

    /// The balances, in the order of the accounts.
    pub fn balances(&self) -> &[u64]
        ensures value { result.now ≡ self.now.balances }
        ensures each { length self.now.balances ≡ length self.now.accounts }
    {
        self.balances.as_slice()
    }

    /// The number of the account with this name.
    pub fn find(&self, name: &Name) -> Option<u32>
        ensures { result ≡ account_of self.now.accounts name.now }
    {
        find_account(self.accounts.as_slice(), name.as_slice())
    }

    /// The balance of an account, which is 0 where there is no such account.
    pub fn balance(&self, account: u32) -> u64
        ensures { result ≡ slice_index self.now.balances account }
    {
        self.balances.get(account as usize).copied().unwrap_or(0)
    }

    /// Lowers the balance of an account by a charge.
    pub fn settle(&mut self, account: u32, charge: u64)
        requires { charge ≤ slice_index self.old.balances account }
        ensures { self.new ≡ record self.old { balances = lowered self.old.balances (Some account) charge } }
    {
        if let Some(balance) = self.balances.get_mut(account as usize) {
            *balance -= charge;
        }
    }
}
