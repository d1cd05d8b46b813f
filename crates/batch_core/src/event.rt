use crate::job::Claim;

/// What happens to the jobs of a batch. A job goes by its number, which counts from 1 in the order of arrival.
#[derive(Clone, Copy, Debug, PartialEq, Eq)]
pub enum Event {
    /// A job arrives, with its claim.
    Arrive(Claim),
    /// A job is accepted: its reserve is held from its account.
    Accept(u32),
    /// A job is refused.
    Refuse(u32),
    /// An accepted job ends, and its account is charged.
    End(u32, u64),
    /// A job's section is printed.
    Print(u32),
}
