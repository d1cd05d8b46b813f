ghost use Rattle.std.specs.Prelude.{◌≡◌};
ghost use Rattle.account_book.specs.Charges.{charge, reserve};

use deck_reader::Job;

/// What a job used.
#[derive(Clone, Copy, Debug, PartialEq, Eq)]
pub struct Counts {
    /// Its cards, the job card among them.
    pub cards: u32,
    /// The steps that it took.
    pub steps: u32,
    /// The lines that it printed.
    pub lines: u32,
}

/// What a job costs that used this much: one for each card, one for each hundred steps begun, and two for each
/// line.
pub fn charge_of(counts: Counts) -> u64
    ensures { result ≡ charge counts }
{
    u64::from(counts.cards) + u64::from(counts.steps).div_ceil(100) + 2 * u64::from(counts.lines)
}

/// What a job may cost: the charge of the most steps and lines that it may use.
pub fn reserve_of(job: &Job) -> u64
    ensures { result ≡ reserve job.now }
{
    charge_of(Counts {
        cards: job.cards,
        steps: job.steps,
        lines: job.lines,
    })
}
