// What holds of the parts that a night is cut into.
ghost use Rattle.night_shares.specs.Laws.{ChainsFit, JobsAreTheNights, PartsFit, PlanIsWhole, WindowsAreTheJobs};

/// The jobs that are cut are those of the batch that all cards of the night are.
pub fn jobs_are_the_nights()
    ensures { JobsAreTheNights }
{}

/// The windows of a night, one after the other, are its jobs, in order.
pub fn windows_are_the_jobs()
    ensures { WindowsAreTheJobs }
{}

/// Each part of a night that can be cut has at most 4,194,304 bytes and 2,000 jobs, as a batch has.
pub fn parts_fit()
    ensures { PartsFit }
{}

/// Each chain has at most 500 accounts, where there is one for each 500 of the night's.
pub fn chains_fit()
    ensures { ChainsFit }
{}

/// What is filed for the plan, one text behind the other, is the plan of the night.
pub fn plan_is_whole()
    ensures { PlanIsWhole }
{}
