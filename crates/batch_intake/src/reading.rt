ghost use Rattle.std.specs.Prelude.{◌≡◌, ◌≤◌, [], List, Option, ℕ, length, true, IfErr, IfOk, IfSome, IsErrOf, OnOk};
ghost use Rattle.deck_reader.specs.declared.batch.Account.{Account};
ghost use Rattle.deck_reader.specs.Batch.{too_large};
ghost use Rattle.deck_reader.specs.Fed.{StandsFor};
ghost use Rattle.batch_intake.specs.Taking.{HasFed, IsWhole, Opens, StopsFeeding, StopsFront};

use crate::halt::Halt;
use crate::intake::Intake;
use batch_io::Source;
use deck_reader::{Account, Listed, Reader};
use std::alloc::{AllocError, Global};

/// How many bytes are read at a time.
const PIECE: usize = 4096;

/// What is known of a batch before its jobs are run.
#[derive(Drop)]
pub struct Front {
    /// All its accounts.
    pub accounts: Vec<Account>,
    pub intake: Intake,
}

/// Reads until the accounts are known, or the input has ended. The accounts are those that are given, or else those that the
/// cards open.
pub fn read_front<S: Source>(
    alloc: Global,
    given: Option<Listed<Account>>,
    src: &mut S,
) -> Result<Front, Halt>
    requires { IfSome given (λ accounts. length accounts ≤ 500) }
    ensures ok { IfOk result (λ front. Opens given (S.left src.old) (S.left src.new) front) }
    ensures kept { OnOk result (S.faults src.new ≡ S.faults src.old) }
    ensures err { IfErr result (λ halt. StopsFront (S.left src.old) (S.left src.new) (S.faults src.old) (S.faults src.new) halt) }
{
    let mut reader = reader_with(alloc, given)?;
    loop {
        let more = feed_piece(&mut reader, src)?;
        if more {
            if let Some(accounts) = reader.accounts() {
                let accounts = Vec::from_slice(alloc, accounts)?;
                let intake = Intake::open(alloc, reader)?;
                return Ok(Front { accounts, intake });
            }
        } else {
            return whole(alloc, reader);
        }
    }
}

/// A reader that was fed nothing, of a batch with the accounts that are given, where they are.
fn reader_with(alloc: Global, given: Option<Listed<Account>>) -> Result<Reader, AllocError>
    requires { IfSome given (λ accounts. length accounts ≤ 500) }
    ensures { IfOk result (λ reader. StandsFor given reader [] []) }
{
    match given {
        Some(accounts) => Reader::with_accounts(alloc, accounts),
        None => Reader::new(alloc),
    }
}

/// What is known where the input has ended.
fn whole(alloc: Global, reader: Reader) -> Result<Front, Halt>
    ensures ok { (given : Option (List Account)) (input : List ℕ) → StandsFor given reader [] input → IfOk result (λ front. IsWhole given front input) }
    ensures large { (given : Option (List Account)) (input : List ℕ) → StandsFor given reader [] input → IsErrOf result Halt.TooLarge → too_large input ≡ true }
    ensures read { IsErrOf result Halt.ReadFault → ⊥ }
    ensures write { IsErrOf result Halt.WriteFault → ⊥ }
{
    let batch = reader.finish()?;
    let accounts = batch.accounts.into_vec();
    let intake = Intake::closed(alloc, batch.jobs.into_vec(), batch.stray)?;
    Ok(Front { accounts, intake })
}

/// Feeds the reader the next piece. The answer is whether there was one: there is none at the end of the input.
pub fn feed_piece<S: Source>(reader: &mut Reader, src: &mut S) -> Result<bool, Halt>
    ensures ok { IfOk result (HasFed reader.old reader.new (S.left src.old) (S.left src.new) (S.faults src.old) (S.faults src.new)) }
    ensures err { IfErr result (λ halt. StopsFeeding reader.old (S.left src.old) (S.left src.new) (S.faults src.old) (S.faults src.new) halt) }
{
    let mut buffer = [0; PIECE];
    let count = src.read(&mut buffer)?;
    if count == 0 {
        return Ok(false);
    }
    reader.feed(&buffer[..count])?;
    Ok(true)
}
