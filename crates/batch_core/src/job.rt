ghost use Rattle.std.specs.Prelude.{◌↔◌, IsTrue};
ghost use Rattle.batch_core.specs.Events.{Admits, IsOutstanding, IsOver};

/// What a job asks: the account that is to pay, the most that it is to pay, and the least that it will.
#[derive(Clone, Copy, Debug, PartialEq, Eq)]
pub struct Claim {
    /// The number of its account; none where the job has a flaw.
    pub account: Option<u32>,
    /// The most that it may be charged.
    pub reserve: u64,
    /// Its cards, for which it is charged whatever it does.
    pub cards: u64,
}

/// How far a job is.
#[derive(Clone, Copy, Debug)]
pub enum Stage {
    /// Nothing is decided of it.
    Undecided,
    /// It was refused.
    Refused,
    /// It was accepted, and what it will be charged isn't known.
    Outstanding,
    /// It was accepted, and this was its charge.
    Ended(u64),
}

/// A job that has arrived.
#[derive(Clone, Copy, Debug)]
pub(crate) struct JobState {
    pub claim: Claim,
    pub stage: Stage,
}

impl JobState {
    /// Whether it may end at a charge.
    pub(crate) fn may_end(&self, charge: u64) -> bool
        ensures { IsTrue result ↔ (IsOutstanding self.now.stage × Admits self.now.claim charge) }
    {
        match self.stage {
            Stage::Outstanding => self.claim.cards <= charge && charge <= self.claim.reserve,
            Stage::Undecided | Stage::Refused | Stage::Ended(_) => false,
        }
    }

    /// Whether it is refused or has ended.
    pub(crate) fn is_over(&self) -> bool
        ensures { IsTrue result ↔ IsOver self.now.stage }
    {
        matches!(self.stage, Stage::Refused | Stage::Ended(_))
    }
}
