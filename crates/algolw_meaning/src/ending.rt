/// How a job ended.
#[derive(Clone, Copy, Debug, PartialEq, Eq)]
pub enum Ending {
    /// It ran to its end.
    Normal,
    /// A fault ended it.
    Fault,
    /// It met a limit.
    Limit,
    /// Its deck was diagnosed, and it didn't run.
    Diagnosed,
}
