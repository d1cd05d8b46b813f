ghost use Rattle.std.specs.Prelude.{◌≡◌, ◌≤◌, ◌<◌, ◌*◌, ℕ, IfOk, IfSome, length};
ghost use Rattle.night_shares.specs.Chains.{accounts_of_chain};

use deck_reader::Account;
use std::alloc::{AllocError, Global};

/// The most accounts of a batch.
const MOST_ACCOUNTS: usize = 500;

/// How many chains a night of so many accounts has, where so many are wanted: these, or as many more as it takes for each to have at
/// most 500 accounts. There is at least one.
pub fn chains_for(accounts: usize, wanted: usize) -> usize
    ensures wanted { wanted ≤ result }
    ensures some { 0 < result }
    ensures enough { accounts ≤ 500 * result }
    ensures least { (chains : ℕ) → wanted ≤ chains → 0 < chains → accounts ≤ 500 * chains → result ≤ chains }
{
    wanted.max(accounts.div_ceil(MOST_ACCOUNTS)).max(1)
}

/// The accounts of a chain, which is numbered from 0.
pub fn accounts_of_chain(
    alloc: Global,
    chains: usize,
    chain: usize,
    accounts: &[Account],
) -> Result<Vec<Account>, AllocError>
    requires { 0 < chains }
    ensures { IfOk result (λ own. own.items ≡ accounts_of_chain chains chain accounts.now) }
{
    let mut own = Vec::new(alloc);
    for (at, account) in accounts.iter().enumerate() {
        if at % chains == chain {
            own.push(*account)?;
        }
    }
    Ok(own)
}
