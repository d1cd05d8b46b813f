ghost use Rattle.office.specs.Prospects.{IsByBounds, Sees};

use account_book::reserve_of;
use batch_core::CoreState;
use deck_reader::{Flaw, Job};

/// What can be decided of a job now.
#[derive(Clone, Copy, Debug)]
pub(crate) enum Prospect {
    /// It may be accepted, at this reserve.
    Covered(u64),
    /// It must be refused: its reserve is above the most that its account can have.
    Uncovered { reserve: u64, high: u64 },
    /// It must be refused for its flaw.
    Flawed(Flaw),
    /// Nothing yet: its reserve is between the least and the most.
    Open { low: u64, high: u64 },
}

impl Prospect {
    /// What can be decided of a job.
    pub(crate) fn of(core: &CoreState, job: &Job) -> Prospect
        ensures { Sees core.now job.now result }
    {
        let reserve = reserve_of(job);
        match (job.flaw, job.account) {
            (Some(flaw), _) => Prospect::Flawed(flaw),
            // A job without a flaw has an account.
            (None, None) => Prospect::Uncovered { reserve, high: 0 },
            (None, Some(account)) => {
                Prospect::by_bounds(reserve, core.low(account), core.high(account))
            },
        }
    }

    /// What can be decided at a reserve, where these are the least and the most that the account can have.
    fn by_bounds(reserve: u64, low: u64, high: u64) -> Prospect
        ensures { IsByBounds reserve low high result }
    {
        if reserve > high {
            Prospect::Uncovered { reserve, high }
        } else if reserve > low {
            Prospect::Open { low, high }
        } else {
            Prospect::Covered(reserve)
        }
    }
}
