ghost use Rattle.std.specs.Prelude.{◌≡◌, IfOk};
ghost use Rattle.deck_reader.specs.Batch.{account_of};
ghost use Rattle.night_shares.specs.AccountNumbers.{Numbers};

use deck_reader::{Account, Name};
use std::alloc::AllocError;
use std::collections::BTreeMap;
use std::marker::Model;

/// The accounts of a night, by their names.
#[derive(Drop)]
pub struct Payers {
    accounts: Vec<Account>,
    /// The number of the first account of each name, from 0.
    numbers: BTreeMap<Name, usize>,
}

impl Model for Payers {
    ghost use Rattle.std.specs.Prelude.{List};
    ghost use Rattle.deck_reader.specs.declared.batch.Account.{Account};

    ghost Value = { List Account };

    ghost use Rattle.night_shares.specs.AccountNumbers.{Numbers};

    ghost view = { λ p. p.accounts.items };

    ghost invariant = { λ p. Numbers p.accounts.items p.numbers };
}

impl Payers {
    /// These accounts.
    pub fn new(accounts: Vec<Account>) -> Result<Payers, AllocError>
        ensures { IfOk result (λ payers. payers ≡ accounts.items) }
    {
        let numbers = numbers_of(&accounts)?;
        Ok(Payers { accounts, numbers })
    }

    /// The number of the account of this name, from 0.
    pub fn find(&self, name: &Name) -> Option<usize>
        ensures { result ≡ account_of self.now name.now }
    {
        self.numbers.get(name).copied()
    }
}

/// The number of the first account of each name.
fn numbers_of(accounts: &Vec<Account>) -> Result<BTreeMap<Name, usize>, AllocError>
    ensures { IfOk result (λ numbers. Numbers accounts.now.items numbers) }
{
    let mut numbers = BTreeMap::new(*accounts.allocator());
    for (number, account) in accounts.iter().enumerate() {
        numbers.entry(account.name)?.or_insert(number);
    }
    Ok(numbers)
}
