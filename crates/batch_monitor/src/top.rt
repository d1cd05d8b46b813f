ghost use Rattle.std.specs.Prelude.{◌≡◌, ◌⊎◌, ℕ, List, IfSome, false, map, string_bytes, true};
ghost use Rattle.batch_io.specs.Causes.{Rose};
ghost use Rattle.deck_reader.specs.Batch.{too_large};
ghost use Rattle.batch_intake.specs.Halts.{IsTooLarge};
ghost use Rattle.batch_monitor.specs.declared.asked.Asked.{Asked};
ghost use Rattle.batch_monitor.specs.Accounts.{IsBadText, StatesNone, StatesSome};
ghost use Rattle.batch_monitor.specs.Orders.{SaysAccounts, SaysMake, SaysNothing, SaysRun, SaysStatement};
ghost use Rattle.batch_monitor.specs.Outcome.{IsCut, IsCutInBalances, IsDone, IsMade, IsShown, NoneRose};
ghost use Rattle.batch_monitor.specs.Stated.{EndsBy, HasStated};
ghost use Rattle.batch_monitor.specs.Status.{number_of, status_after};

use crate::accounts::Unread;
use crate::orders::{obey, staff_for};
use batch_io::{Gate, Sink, Source};
use batch_runner::Halt;
use command_words::{WordsError, read_words};
use std::alloc::{AllocError, Global};
use std::sync::Wait;
use std::thread::Threads;

/// How a run ended.
#[derive(Clone, Copy, Debug, PartialEq, Eq)]
pub enum Status {
    /// The source was read to its end, and what the words ask for was written whole.
    Done,
    /// The command words aren't of the form. Nothing was read or written.
    BadWords,
    /// Memory was wanting.
    NoMemory,
    /// A read failed.
    ReadFault,
    /// A write failed.
    WriteFault,
    /// The batch is too large.
    TooLarge,
    /// The accounts file states no accounts. Nothing was written, and of the batch nothing was read.
    BadAccounts,
}

impl Status {
    /// The number with which the program ends.
    pub fn number(self) -> u8
        ensures { result ≡ number_of self }
    {
        match self {
            Status::Done => 0,
            Status::BadWords => 2,
            Status::NoMemory => 3,
            Status::ReadFault => 4,
            Status::WriteFault => 5,
            Status::TooLarge => 6,
            Status::BadAccounts => 7,
        }
    }
}

impl From<Halt> for Status {
    ghost use Rattle.std.specs.Prelude.{◌≡◌};
    ghost use Rattle.batch_monitor.specs.Status.{status_of};

    ghost from_gives = { λ halt status. status ≡ status_of halt };

    fn from(halt: Halt) -> Status {
        match halt {
            Halt::NoMemory => Status::NoMemory,
            Halt::ReadFault => Status::ReadFault,
            Halt::WriteFault => Status::WriteFault,
            Halt::TooLarge => Status::TooLarge,
        }
    }
}

impl From<Unread> for Status {
    ghost use Rattle.std.specs.Prelude.{◌≡◌};
    ghost use Rattle.batch_monitor.specs.Status.{status_unread};

    ghost from_gives = { λ unread status. status ≡ status_unread unread };

    fn from(unread: Unread) -> Status {
        match unread {
            Unread::NoMemory => Status::NoMemory,
            Unread::ReadFault => Status::ReadFault,
            Unread::BadAccounts => Status::BadAccounts,
        }
    }
}

/// Does what the command words say: reads a batch, runs its jobs and writes the listing; or makes a batch, runs its jobs
/// and writes the summary of its listing. With `--board` a line behind the listing tells how many jobs have arrived, were accepted
/// and refused, have ended, and are printed. With `--accounts` the opening balances of a batch that is read are those that an
/// accounts file states, which is read first, and behind the listing a text is written that states the closing balances, which
/// may be the next batch's opening ones. With `--statement` the batch is read and its jobs are run as well, and only the statement
/// of one account is written. So many workers run the jobs as the words say, in threads of their own but for one,
/// and as many accepted jobs as they say may wait for them: no byte depends on these numbers, nor on what the workers do when.
pub fn run_monitor<R: Threads + Wait + Sync, S: Source, K: Sink, A: Source, B: Sink, G: Gate>(
    rt: &R,
    alloc: Global,
    words: &[String],
    src: &mut S,
    sink: &mut K,
    accounts_src: &mut A,
    accounts_sink: &mut B,
    gate: &G,
) -> Status
    // Words that say nothing are refused, and no others are; then nothing is read or written.
    ensures bad { result ≡ Status.BadWords → SaysNothing (map string_bytes words.now) }
    ensures words { SaysNothing (map string_bytes words.now)
        → (result ≡ Status.BadWords) ⊎ (result ≡ Status.NoMemory) }
    ensures untouched { SaysNothing (map string_bytes words.now) → (src.new ≡ src.old) × (sink.new ≡ sink.old)
        × (accounts_src.new ≡ accounts_src.old) × (accounts_sink.new ≡ accounts_sink.old) }

    // What was written is the listing of the batch with its accounts, and behind it the line of a board and the closing balances
    // where they are asked for.
    ensures done { (asked : Asked) → SaysRun (map string_bytes words.now) asked → result ≡ Status.Done
        → IsDone asked (S.left src.old) (S.left src.new) (K.written sink.old) (K.written sink.new)
        (A.left accounts_src.old) (A.left accounts_src.new) (B.written accounts_sink.old) (B.written accounts_sink.new) }

    // With a board the listing is followed by a line whose numbers add up.
    ensures board { (asked : Asked) → SaysRun (map string_bytes words.now) asked → asked.board ≡ true → result ≡ Status.Done
        → IsShown asked (S.left src.old) (S.left src.new) (K.written sink.old) (K.written sink.new)
        (A.left accounts_src.old) (A.left accounts_src.new) }

    // On any other answer it is a prefix of that, for what was read; or of the batch nothing was read, and nothing was written.
    ensures cut { (asked : Asked) → SaysRun (map string_bytes words.now) asked → (result ≡ Status.Done → ⊥)
        → IsCut asked (S.left src.old) (S.left src.new) (K.written sink.old) (K.written sink.new) (A.left accounts_src.old) (A.left accounts_src.new)
        ⊎ ((asked.accounts ≡ true) × (src.new ≡ src.old) × (sink.new ≡ sink.old)) }

    // Then no closing balances were written, or a prefix of them where a write failed.
    ensures balances { (asked : Asked) → SaysRun (map string_bytes words.now) asked → (result ≡ Status.Done → ⊥)
        → (accounts_sink.new ≡ accounts_sink.old) ⊎ ((result ≡ Status.WriteFault)
        × IsCutInBalances asked (S.left src.old) (S.left src.new) (K.written sink.old) (K.written sink.new)
        (A.left accounts_src.old) (A.left accounts_src.new) (B.written accounts_sink.old) (B.written accounts_sink.new)) }

    // Without an accounts file neither of its ends is touched.
    ensures alone { (asked : Asked) → SaysRun (map string_bytes words.now) asked → asked.accounts ≡ false
        → (accounts_src.new ≡ accounts_src.old) × (accounts_sink.new ≡ accounts_sink.old) }

    // Each answer has its cause, and no fault is passed over.
    ensures kept { result ≡ Status.Done
        → (S.faults src.new ≡ S.faults src.old) × (K.faults sink.new ≡ K.faults sink.old)
        × (A.faults accounts_src.new ≡ A.faults accounts_src.old) × (B.faults accounts_sink.new ≡ B.faults accounts_sink.old) }
    ensures read { result ≡ Status.ReadFault → Rose (S.faults src.old) (S.faults src.new)
        ⊎ (SaysAccounts (map string_bytes words.now) × Rose (A.faults accounts_src.old) (A.faults accounts_src.new)) }
    ensures write { result ≡ Status.WriteFault → Rose (K.faults sink.old) (K.faults sink.new)
        ⊎ (SaysAccounts (map string_bytes words.now) × Rose (B.faults accounts_sink.old) (B.faults accounts_sink.new)) }
    ensures large { result ≡ Status.TooLarge → IsTooLarge (S.left src.old) (S.left src.new) }

    // Accounts are bad only where the file's text states none; then the batch isn't read, and nothing is written.
    ensures accounts { result ≡ Status.BadAccounts
        → SaysAccounts (map string_bytes words.now) × IsBadText (A.left accounts_src.old) (A.left accounts_src.new) }
    ensures unread { result ≡ Status.BadAccounts
        → (src.new ≡ src.old) × (sink.new ≡ sink.old) × (accounts_sink.new ≡ accounts_sink.old) }

    // A text that states no accounts is refused, whatever the batch is; a batch that fits is run to the end, and one that
    // doesn't is refused, unless a read, a write or memory fails.
    ensures refused_accounts { SaysAccounts (map string_bytes words.now)
        → IfSome (A.left accounts_src.old) (λ text. StatesNone text
        → (Rose (A.faults accounts_src.old) (A.faults accounts_src.new) → ⊥)
        → (result ≡ Status.BadAccounts) ⊎ (result ≡ Status.NoMemory)) }
    ensures complete { (asked : Asked) → SaysRun (map string_bytes words.now) asked → StatesSome asked.accounts (A.left accounts_src.old)
        → NoneRose asked (S.faults src.old) (S.faults src.new) (K.faults sink.old) (K.faults sink.new)
        (A.faults accounts_src.old) (A.faults accounts_src.new) (B.faults accounts_sink.old) (B.faults accounts_sink.new)
        → IfSome (S.left src.old) (λ b. too_large b ≡ false → (result ≡ Status.Done) ⊎ (result ≡ Status.NoMemory)) }
    ensures refused { (asked : Asked) → SaysRun (map string_bytes words.now) asked → StatesSome asked.accounts (A.left accounts_src.old)
        → NoneRose asked (S.faults src.old) (S.faults src.new) (K.faults sink.old) (K.faults sink.new)
        (A.faults accounts_src.old) (A.faults accounts_src.new) (B.faults accounts_sink.old) (B.faults accounts_sink.new)
        → IfSome (S.left src.old) (λ b. too_large b ≡ true → (result ≡ Status.TooLarge) ⊎ (result ≡ Status.NoMemory)) }

    // A batch that is made leaves both sources as they were, and the accounts' sink. What was written is the summary of the
    // batch's listing, or a prefix of it where memory was wanting or a write failed.
    ensures made { (seed jobs : ℕ) → SaysMake (map string_bytes words.now) seed jobs
        → IsMade seed jobs (K.written sink.old) (K.written sink.new) result
        × (src.new ≡ src.old) × (accounts_src.new ≡ accounts_src.old) × (accounts_sink.new ≡ accounts_sink.old) }

    // Where the statement of an account is asked for, it was written whole; or nothing was, or where a write failed a prefix of it.
    // The accounts' ends are as they were.
    ensures statement { (name : List ℕ) → SaysStatement (map string_bytes words.now) name
        → HasStated name (S.left src.old) (S.left src.new) (K.written sink.old) (K.written sink.new) (sink.new ≡ sink.old) result
        × (accounts_src.new ≡ accounts_src.old) × (accounts_sink.new ≡ accounts_sink.old) }

    // Such a run comes to its end, too, where no read and no write fails: a batch that fits is stated, and another one refused.
    ensures stated { (name : List ℕ) → SaysStatement (map string_bytes words.now) name
        → (Rose (S.faults src.old) (S.faults src.new) → ⊥) → (Rose (K.faults sink.old) (K.faults sink.new) → ⊥)
        → IfSome (S.left src.old) (λ b. EndsBy (too_large b) result) }
{
    match read_words(alloc, words) {
        Ok(order) => match staff_for(alloc, &order) {
            Ok(staff) => obey(
                rt,
                alloc,
                &order,
                src,
                sink,
                accounts_src,
                accounts_sink,
                staff,
                gate,
            ),
            Err(AllocError) => Status::NoMemory,
        },
        Err(WordsError::BadWords) => Status::BadWords,
        Err(WordsError::NoMemory) => Status::NoMemory,
    }
}

/// How a run ended that ended so.
pub(crate) fn status_after(ended: Result<(), Halt>) -> Status
    ensures { result ≡ status_after ended }
{
    match ended {
        Ok(()) => Status::Done,
        Err(halt) => Status::from(halt),
    }
}
