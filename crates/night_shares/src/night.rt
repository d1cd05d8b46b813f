ghost use Rattle.std.specs.Prelude.{◌≡◌, ℕ, List, IfErr, OnErr, OnOk};
ghost use Rattle.night_shares.specs.Nights.{CutsNight, NightCause, StopsNight};

use crate::accounts::night_accounts;
use crate::chains::chains_for;
use crate::cutting::cut_cards;
use crate::openings::file_accounts;
use crate::rows::front_rows;
use crate::shelf::{NightFile, Shelf};
use crate::stop::Stop;
use batch_io::Source;
use std::alloc::Global;

/// Cuts a night: the accounts come from an accounts file with any number of accounts, and the cards from a source of any length.
/// There are as many chains as are wanted, at least one, and more only where it takes more for each to have at most 500 accounts.
pub fn cut_night<A: Source, S: Source, D: Shelf>(
    alloc: Global,
    wanted: usize,
    accounts: &mut A,
    src: &mut S,
    shelf: &mut D,
) -> Result<(), Stop>
    ensures ok { OnOk result (CutsNight wanted (A.left accounts.old) (A.left accounts.new) (S.left src.old) (D.filed shelf.old) (D.filed shelf.new)) }
    ensures err { OnErr result (StopsNight wanted (A.left accounts.old) (A.left accounts.new) (S.left src.old) (D.filed shelf.old) (D.filed shelf.new)) }
    ensures kept { OnOk result ((A.faults accounts.new ≡ A.faults accounts.old) × (S.faults src.new ≡ S.faults src.old) × (D.faults shelf.new ≡ D.faults shelf.old)) }
    ensures cause { IfErr result (λ stop. NightCause stop (A.left accounts.old) (A.left accounts.new) (S.left src.old)
        (A.faults accounts.old) (A.faults accounts.new) (S.faults src.old) (S.faults src.new) (D.faults shelf.old) (D.faults shelf.new)) }
{
    let accounts = night_accounts(alloc, accounts)?;
    let chains = chains_for(accounts.len(), wanted);
    let rows = front_rows(alloc, chains as u64, accounts.as_slice())?;
    shelf.file(NightFile::Plan, rows.as_slice())?;
    file_accounts(alloc, chains, accounts.as_slice(), shelf)?;
    cut_cards(alloc, chains, accounts, src, shelf)
}
