use crate::charges::Counts;
use deck_reader::Flaw;

/// What became of a job at its place in a batch.
#[derive(Clone, Copy, Debug, PartialEq, Eq)]
pub enum Decision {
    /// It is refused for its flaw.
    Flawed(Flaw),
    /// It is refused, since its reserve is above its account's balance.
    Refused { reserve: u64, balance: u64 },
    /// It was run, and its account is charged for what it used.
    Charged(Counts),
}
