ghost use Rattle.std.specs.Prelude.{◌≡◌, IfOk, length};
ghost use Rattle.batch_listing.specs.Behind.{with_balances};

use deck_reader::Account;
use std::alloc::{AllocError, Global};

/// Each account with its balance as its opening.
pub fn with_balances(
    alloc: Global,
    accounts: &[Account],
    balances: &[u64],
) -> Result<Vec<Account>, AllocError>
    requires { length balances.now ≡ length accounts.now }
    ensures { IfOk result (λ v. v.items ≡ with_balances accounts.now balances.now) }
{
    let mut closed = Vec::with_capacity(alloc, accounts.len())?;
    for (i, account) in accounts.iter().enumerate() {
        closed.push(Account {
            name: account.name,
            opening: balances[i],
        })?;
    }
    Ok(closed)
}
