use accounts_text::AccountsError;
use batch_io::{ReadFailed, WriteFailed};
use deck_reader::FeedError;
use std::alloc::{AllocError, AllocFailed};

/// Why a night isn't cut.
#[derive(Clone, Copy, Debug, PartialEq, Eq)]
pub enum Stop {
    /// Memory was wanting.
    NoMemory,
    /// A read failed.
    ReadFault,
    /// A write failed.
    WriteFault,
    /// The cards before the first job and one more, or those from a job card up to the next with the libraries', have over 4,194,304
    /// bytes; or there are 4,294,967,295 jobs or more.
    TooLarge,
    /// The accounts file isn't a text that states accounts, of which there may be none, or it has over 67,108,864 bytes.
    BadAccounts,
}

impl From<AllocError> for Stop {
    ghost use Rattle.std.specs.Prelude.{◌≡◌};
    ghost use Rattle.night_shares.specs.declared.stop.Stop.TheVariants.{NoMemory};

    ghost from_gives = { λ _ stop. stop ≡ NoMemory };

    fn from(_: AllocError) -> Stop {
        Stop::NoMemory
    }
}

impl<T: Drop> From<AllocFailed<T>> for Stop {
    ghost use Rattle.std.specs.Prelude.{◌≡◌};
    ghost use Rattle.night_shares.specs.declared.stop.Stop.TheVariants.{NoMemory};

    ghost from_gives = { λ _ stop. stop ≡ NoMemory };

    fn from(_: AllocFailed<T>) -> Stop {
        Stop::NoMemory
    }
}

impl From<ReadFailed> for Stop {
    ghost use Rattle.std.specs.Prelude.{◌≡◌};
    ghost use Rattle.night_shares.specs.declared.stop.Stop.TheVariants.{ReadFault};

    ghost from_gives = { λ _ stop. stop ≡ ReadFault };

    fn from(_: ReadFailed) -> Stop {
        Stop::ReadFault
    }
}

impl From<WriteFailed> for Stop {
    ghost use Rattle.std.specs.Prelude.{◌≡◌};
    ghost use Rattle.night_shares.specs.declared.stop.Stop.TheVariants.{WriteFault};

    ghost from_gives = { λ _ stop. stop ≡ WriteFault };

    fn from(_: WriteFailed) -> Stop {
        Stop::WriteFault
    }
}

impl From<FeedError> for Stop {
    ghost use Rattle.std.specs.Prelude.{◌≡◌};
    ghost use Rattle.night_shares.specs.Stops.{stop_of};

    ghost from_gives = { λ error stop. stop ≡ stop_of error };

    fn from(error: FeedError) -> Stop {
        match error {
            FeedError::TooLarge => Stop::TooLarge,
            FeedError::NoMemory => Stop::NoMemory,
        }
    }
}

impl From<AccountsError> for Stop {
    ghost use Rattle.std.specs.Prelude.{◌≡◌};
    ghost use Rattle.night_shares.specs.Accounts.{stop_for};

    ghost from_gives = { λ error stop. stop ≡ stop_for error };

    fn from(error: AccountsError) -> Stop {
        match error {
            AccountsError::BadAccounts => Stop::BadAccounts,
            AccountsError::NoMemory => Stop::NoMemory,
        }
    }
}
