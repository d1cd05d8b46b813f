use crate::shelf::{Part, Unfetched};
use batch_io::{ReadFailed, WriteFailed};
use std::alloc::{AllocError, AllocFailed};

/// Why a plan isn't read on.
#[derive(Clone, Copy, Debug, PartialEq, Eq)]
pub enum Unread {
    /// Memory was wanting.
    NoMemory,
    /// A read failed.
    ReadFault,
    /// What is there is no plan.
    BadPlan,
}

impl<T: Drop> From<AllocFailed<T>> for Unread {
    ghost use Rattle.std.specs.Prelude.{◌≡◌};
    ghost use Rattle.night_merge.specs.declared.stop.Unread.TheVariants.{NoMemory};

    ghost from_gives = { λ _ unread. unread ≡ NoMemory };

    fn from(_: AllocFailed<T>) -> Unread {
        Unread::NoMemory
    }
}

impl From<AllocError> for Unread {
    ghost use Rattle.std.specs.Prelude.{◌≡◌};
    ghost use Rattle.night_merge.specs.declared.stop.Unread.TheVariants.{NoMemory};

    ghost from_gives = { λ _ unread. unread ≡ NoMemory };

    fn from(_: AllocError) -> Unread {
        Unread::NoMemory
    }
}

impl From<ReadFailed> for Unread {
    ghost use Rattle.std.specs.Prelude.{◌≡◌};
    ghost use Rattle.night_merge.specs.declared.stop.Unread.TheVariants.{ReadFault};

    ghost from_gives = { λ _ unread. unread ≡ ReadFault };

    fn from(_: ReadFailed) -> Unread {
        Unread::ReadFault
    }
}

/// Why the listing of a night isn't written whole.
#[derive(Clone, Copy, Debug, PartialEq, Eq)]
pub enum Stop {
    /// Memory was wanting.
    NoMemory,
    /// A read failed.
    ReadFault,
    /// A write failed.
    WriteFault,
    /// The plan is none.
    BadPlan,
    /// This part's listing isn't there.
    Missing(Part),
    /// What is there isn't the listing of this part.
    OtherListing(Part),
}

impl<T: Drop> From<AllocFailed<T>> for Stop {
    ghost use Rattle.std.specs.Prelude.{◌≡◌};
    ghost use Rattle.night_merge.specs.declared.stop.Stop.TheVariants.{NoMemory};

    ghost from_gives = { λ _ stop. stop ≡ NoMemory };

    fn from(_: AllocFailed<T>) -> Stop {
        Stop::NoMemory
    }
}

impl From<AllocError> for Stop {
    ghost use Rattle.std.specs.Prelude.{◌≡◌};
    ghost use Rattle.night_merge.specs.declared.stop.Stop.TheVariants.{NoMemory};

    ghost from_gives = { λ _ stop. stop ≡ NoMemory };

    fn from(_: AllocError) -> Stop {
        Stop::NoMemory
    }
}

impl From<WriteFailed> for Stop {
    ghost use Rattle.std.specs.Prelude.{◌≡◌};
    ghost use Rattle.night_merge.specs.declared.stop.Stop.TheVariants.{WriteFault};

    ghost from_gives = { λ _ stop. stop ≡ WriteFault };

    fn from(_: WriteFailed) -> Stop {
        Stop::WriteFault
    }
}

impl From<Unread> for Stop {
    ghost use Rattle.std.specs.Prelude.{◌≡◌};
    ghost use Rattle.night_merge.specs.Stops.{stop_unread};

    ghost from_gives = { λ unread stop. stop ≡ stop_unread unread };

    fn from(unread: Unread) -> Stop {
        match unread {
            Unread::NoMemory => Stop::NoMemory,
            Unread::ReadFault => Stop::ReadFault,
            Unread::BadPlan => Stop::BadPlan,
        }
    }
}

impl From<Unfetched> for Stop {
    ghost use Rattle.std.specs.Prelude.{◌≡◌};
    ghost use Rattle.night_merge.specs.Stops.{stop_unfetched};

    ghost from_gives = { λ unfetched stop. stop ≡ stop_unfetched unfetched };

    fn from(unfetched: Unfetched) -> Stop {
        match unfetched {
            Unfetched::NoMemory => Stop::NoMemory,
            Unfetched::ReadFault => Stop::ReadFault,
        }
    }
}
