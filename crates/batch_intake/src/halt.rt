use batch_io::{ReadFailed, WriteFailed};
use deck_reader::FeedError;
use std::alloc::{AllocError, AllocFailed};

/// Why a listing isn't written whole.
#[derive(Clone, Copy, Debug, PartialEq, Eq)]
pub enum Halt {
    /// Memory was wanting.
    NoMemory,
    /// A read failed.
    ReadFault,
    /// A write failed.
    WriteFault,
    /// The batch is too large.
    TooLarge,
}

impl From<AllocError> for Halt {
    ghost use Rattle.std.specs.Prelude.{◌≡◌};
    ghost use Rattle.batch_intake.specs.declared.halt.Halt.TheVariants.{NoMemory};

    ghost from_gives = { λ _ halt. halt ≡ NoMemory };

    fn from(_: AllocError) -> Halt {
        Halt::NoMemory
    }
}

impl<T: Drop> From<AllocFailed<T>> for Halt {
    ghost use Rattle.std.specs.Prelude.{◌≡◌};
    ghost use Rattle.batch_intake.specs.declared.halt.Halt.TheVariants.{NoMemory};

    ghost from_gives = { λ _ halt. halt ≡ NoMemory };

    fn from(_: AllocFailed<T>) -> Halt {
        Halt::NoMemory
    }
}

impl From<ReadFailed> for Halt {
    ghost use Rattle.std.specs.Prelude.{◌≡◌};
    ghost use Rattle.batch_intake.specs.declared.halt.Halt.TheVariants.{ReadFault};

    ghost from_gives = { λ _ halt. halt ≡ ReadFault };

    fn from(_: ReadFailed) -> Halt {
        Halt::ReadFault
    }
}

impl From<WriteFailed> for Halt {
    ghost use Rattle.std.specs.Prelude.{◌≡◌};
    ghost use Rattle.batch_intake.specs.declared.halt.Halt.TheVariants.{WriteFault};

    ghost from_gives = { λ _ halt. halt ≡ WriteFault };

    fn from(_: WriteFailed) -> Halt {
        Halt::WriteFault
    }
}

impl From<FeedError> for Halt {
    ghost use Rattle.std.specs.Prelude.{◌≡◌};
    ghost use Rattle.batch_intake.specs.Halts.{halt_of};

    ghost from_gives = { λ error halt. halt ≡ halt_of error };

    fn from(error: FeedError) -> Halt {
        match error {
            FeedError::TooLarge => Halt::TooLarge,
            FeedError::NoMemory => Halt::NoMemory,
        }
    }
}
