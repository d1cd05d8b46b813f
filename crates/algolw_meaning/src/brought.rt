use crate::ended::Ended;

/// What was found of a job before its section is made.
#[derive(Drop)]
pub enum Brought {
    /// It was refused.
    Refused,
    /// It was run, and ended so.
    Ended(Ended),
}
