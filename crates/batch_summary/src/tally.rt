ghost use Rattle.std.specs.Prelude.{◌≡◌, ◌≤◌, ◌^◌, MatchOption};
ghost use Rattle.batch_summary.specs.Tally.{Fits, tally_with, with_one};

/// What became of a job.
#[derive(Clone, Copy, Debug, PartialEq, Eq)]
pub enum Outcome {
    /// It ended normally.
    Normal,
    /// A fault ended it.
    Fault,
    /// It met a limit.
    Limit,
    /// Its deck was diagnosed.
    Diagnosed,
    /// It was refused.
    Refused,
}

/// What one section of a listing comes to.
#[derive(Clone, Copy, Debug, PartialEq, Eq)]
pub struct Entry {
    /// What became of its job.
    pub outcome: Outcome,
    /// What the job is charged.
    pub charge: u64,
    /// How many bytes it has.
    pub bytes: u64,
}

/// What sections of a listing come to together.
#[derive(Clone, Copy, Debug, PartialEq, Eq)]
pub struct Tally {
    /// How many jobs ended normally.
    pub normal: u32,
    /// How many a fault ended.
    pub fault: u32,
    /// How many met a limit.
    pub limit: u32,
    /// How many were diagnosed.
    pub diagnosed: u32,
    /// How many were refused.
    pub refused: u32,
    /// What the jobs are charged.
    pub charges: u64,
    /// How many bytes there are.
    pub bytes: u64,
}

impl Tally {
    /// The tally with a section more, or `None` exactly where a number would pass its type.
    pub fn with(self, section: Entry) -> Option<Tally>
        ensures { MatchOption result (Fits (tally_with self section) → ⊥) (λ tally. tally ≡ tally_with self section) }
    {
        Some(Tally {
            normal: with_one(self.normal, section.outcome == Outcome::Normal)?,
            fault: with_one(self.fault, section.outcome == Outcome::Fault)?,
            limit: with_one(self.limit, section.outcome == Outcome::Limit)?,
            diagnosed: with_one(self.diagnosed, section.outcome == Outcome::Diagnosed)?,
            refused: with_one(self.refused, section.outcome == Outcome::Refused)?,
            charges: self.charges.checked_add(section.charge)?,
            bytes: self.bytes.checked_add(section.bytes)?,
        })
    }
}

/// A count with one more, where there is one.
fn with_one(count: u32, is_one: bool) -> Option<u32>
    ensures { MatchOption result (2 ^ 32 ≤ with_one count is_one) (λ n. n ≡ with_one count is_one) }
{
    count.checked_add(u32::from(is_one))
}
