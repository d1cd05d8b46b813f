ghost use Rattle.std.specs.Prelude.{◌≡◌, ◌≤◌, ◌<◌, ◌*◌, ℕ, IfErr, OnErr, OnOk, length};
ghost use Rattle.night_shares.specs.Accounts.{AreNightAccounts};
ghost use Rattle.night_shares.specs.Openings.{FilesOpenings, FilesSomeOpenings};
ghost use Rattle.night_shares.specs.Stops.{WriteCause};

use crate::chains::accounts_of_chain;
use crate::shelf::{NightFile, Shelf};
use crate::stop::Stop;
use accounts_text::accounts_bytes;
use deck_reader::Account;
use std::alloc::Global;

/// Files the accounts file of each chain.
pub fn file_accounts<D: Shelf>(
    alloc: Global,
    chains: usize,
    accounts: &[Account],
    shelf: &mut D,
) -> Result<(), Stop>
    requires some { 0 < chains }
    requires enough { length accounts.now ≤ 500 * chains }
    requires rules { AreNightAccounts accounts.now }
    ensures ok { OnOk result (FilesOpenings (D.filed shelf.old) (D.filed shelf.new) chains accounts.now chains) }
    ensures err { OnErr result (FilesSomeOpenings (D.filed shelf.old) (D.filed shelf.new) chains accounts.now) }
    ensures kept { OnOk result (D.faults shelf.new ≡ D.faults shelf.old) }
    ensures cause { IfErr result (λ stop. WriteCause stop (D.faults shelf.old) (D.faults shelf.new)) }
{
    for chain in 0..chains {
        let own = accounts_of_chain(alloc, chains, chain, accounts)?;
        let text = accounts_bytes(alloc, own.as_slice())?;
        shelf.file(NightFile::Accounts(chain as u64 + 1), text.as_slice())?;
    }
    Ok(())
}
