ghost use Rattle.std.specs.Prelude.{◌≡◌, ◌⊎◌, List, Some, IfErr, IfOk, OnErr, OnOk, IsErrOf, true, false};
ghost use Rattle.batch_io.specs.Causes.{Rose};
ghost use Rattle.accounts_text.specs.Text.{AreAccounts};
ghost use Rattle.deck_reader.specs.JobView.{JobView};
ghost use Rattle.batch_listing.specs.Behind.{IsBehind};
ghost use Rattle.batch_monitor.specs.Accounts.{AreGiven, Given, IsBadText};
ghost use Rattle.batch_monitor.specs.Closing.{StatesClosing, StatesClosingInPart};
ghost use Rattle.batch_monitor.specs.Reading.{HasText};

use accounts_text::{AccountsError, accounts_bytes, read_accounts};
use batch_io::{ReadFailed, Sink, Source};
use batch_listing::{Audit, write_all_of};
use batch_runner::Halt;
use deck_reader::{Account, Listed};
use std::alloc::{AllocError, Global};

/// The most bytes of a text of accounts.
const MOST_BYTES: usize = 65_536;

/// How many bytes of it are read at a time.
const PIECE: usize = 4096;

/// Why a run that is to have its accounts from a file has none.
#[derive(Clone, Copy, Debug, PartialEq, Eq)]
pub enum Unread {
    /// Memory was wanting.
    NoMemory,
    /// A read failed.
    ReadFault,
    /// The file states no accounts.
    BadAccounts,
}

impl From<AllocError> for Unread {
    ghost use Rattle.std.specs.Prelude.{◌≡◌};
    ghost use Rattle.batch_monitor.specs.declared.accounts.Unread.TheVariants.{NoMemory};

    ghost from_gives = { λ _ unread. unread ≡ NoMemory };

    fn from(_: AllocError) -> Unread {
        Unread::NoMemory
    }
}

impl From<ReadFailed> for Unread {
    ghost use Rattle.std.specs.Prelude.{◌≡◌};
    ghost use Rattle.batch_monitor.specs.declared.accounts.Unread.TheVariants.{ReadFault};

    ghost from_gives = { λ _ unread. unread ≡ ReadFault };

    fn from(_: ReadFailed) -> Unread {
        Unread::ReadFault
    }
}

impl From<AccountsError> for Unread {
    ghost use Rattle.std.specs.Prelude.{◌≡◌};
    ghost use Rattle.batch_monitor.specs.Reading.{unread_of};

    ghost from_gives = { λ error unread. unread ≡ unread_of error };

    fn from(error: AccountsError) -> Unread {
        match error {
            AccountsError::BadAccounts => Unread::BadAccounts,
            AccountsError::NoMemory => Unread::NoMemory,
        }
    }
}

/// The accounts that are given to a run: where there is to be an accounts file, those that it states, and otherwise none.
pub fn given_accounts<A: Source>(
    alloc: Global,
    accounts: bool,
    src: &mut A,
) -> Result<Option<Listed<Account>>, Unread>
    ensures given { IfOk result (λ given. Given accounts (A.left src.old) (A.left src.new) given) }
    ensures sound { IfOk result (λ given. AreGiven accounts given) }
    ensures kept { OnOk result (A.faults src.new ≡ A.faults src.old) }
    ensures alone { accounts ≡ false → src.new ≡ src.old }
    ensures some { OnErr result (accounts ≡ true) }
    ensures read { IsErrOf result Unread.ReadFault → Rose (A.faults src.old) (A.faults src.new) }
    ensures bad { IsErrOf result Unread.BadAccounts → IsBadText (A.left src.old) (A.left src.new) }
{
    if !accounts {
        return Ok(None);
    }
    let stated = file_accounts(alloc, src)?;
    Ok(Some(Listed::from_vec(stated)))
}

/// The accounts that an accounts file states, which is read to its end, unless it is too long.
fn file_accounts<A: Source>(alloc: Global, src: &mut A) -> Result<Vec<Account>, Unread>
    ensures given { IfOk result (λ stated. Given true (A.left src.old) (A.left src.new) (Some stated.items)) }
    ensures kept { OnOk result (A.faults src.new ≡ A.faults src.old) }
    ensures read { IsErrOf result Unread.ReadFault → Rose (A.faults src.old) (A.faults src.new) }
    ensures bad { IsErrOf result Unread.BadAccounts → IsBadText (A.left src.old) (A.left src.new) }
{
    let text = read_text(alloc, src)?;
    let stated = read_accounts(alloc, text.as_slice())?;
    Ok(stated)
}

/// Reads a text to its end, or so far that it is longer than a text of accounts.
fn read_text<A: Source>(alloc: Global, src: &mut A) -> Result<Vec<u8>, Unread>
    ensures ok { IfOk result (λ text. HasText (A.left src.old) (A.left src.new) text.items) }
    ensures kept { OnOk result (A.faults src.new ≡ A.faults src.old) }
    ensures read { IsErrOf result Unread.ReadFault → Rose (A.faults src.old) (A.faults src.new) }
    ensures bad { IsErrOf result Unread.BadAccounts → ⊥ }
{
    let mut text = Vec::new(alloc);
    let mut buffer = [0; PIECE];
    while text.len() <= MOST_BYTES {
        let count = src.read(&mut buffer)?;
        if count == 0 {
            return Ok(text);
        }
        text.extend_from_slice(&buffer[..count])?;
    }
    Ok(text)
}

/// Writes a text that states the closing balances behind these jobs.
pub fn write_balances<B: Sink>(alloc: Global, audit: &Audit, sink: &mut B) -> Result<(), Halt>
    requires accounts { AreAccounts audit.now.book.accounts }
    requires behind { (jobs : List JobView) × IsBehind audit.now.book jobs }
    ensures done { (jobs : List JobView) → IsBehind audit.now.book jobs → OnOk result (StatesClosing audit.now.book.accounts jobs (B.written sink.old) (B.written sink.new)) }
    ensures cut { (jobs : List JobView) → IsBehind audit.now.book jobs → IfErr result (λ halt. (sink.new ≡ sink.old)
        ⊎ ((halt ≡ Halt.WriteFault) × StatesClosingInPart audit.now.book.accounts jobs (B.written sink.old) (B.written sink.new))) }
    ensures kept { OnOk result (B.faults sink.new ≡ B.faults sink.old) }
    ensures read { IsErrOf result Halt.ReadFault → ⊥ }
    ensures write { IsErrOf result Halt.WriteFault → Rose (B.faults sink.old) (B.faults sink.new) }
    ensures large { IsErrOf result Halt.TooLarge → ⊥ }
{
    let closed = audit.closing_accounts(alloc)?;
    let text = accounts_bytes(alloc, closed.as_slice())?;
    write_all_of(sink, text.as_slice())?;
    Ok(())
}
