ghost use Rattle.std.specs.Prelude.{◌≡◌};
ghost use Rattle.office.specs.Standings.{standing_by};

use batch_core::Stage;

/// What an office keeps for the number of a job.
#[derive(Clone, Copy, Debug, PartialEq, Eq)]
pub enum Standing {
    /// No job of this number has arrived.
    NotArrived,
    /// Nothing is decided of it.
    Undecided,
    /// It was refused.
    Refused,
    /// It was accepted, and hasn't ended.
    Running,
    /// It has ended.
    Ended,
}

impl Standing {
    /// The standing of a job that is so far, or of none.
    pub(crate) fn of(stage: Option<Stage>) -> Standing
        ensures { result ≡ standing_by stage }
    {
        match stage {
            None => Standing::NotArrived,
            Some(Stage::Undecided) => Standing::Undecided,
            Some(Stage::Refused) => Standing::Refused,
            Some(Stage::Outstanding) => Standing::Running,
            Some(Stage::Ended(_)) => Standing::Ended,
        }
    }
}
