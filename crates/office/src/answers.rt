use crate::standing::Standing;
use algolw_meaning::Ended;
use deck_reader::Flaw;
use job_queue::Ticket;

/// Why a job was not let in.
#[derive(Clone, Copy, Debug, PartialEq, Eq)]
pub enum ArriveError {
    /// It isn't the next one, or it is on an account that isn't there.
    Misfit {
        /// The number that the next job has.
        next: u64,
        /// How many accounts there are.
        accounts: u32,
    },
    /// Memory is wanting.
    NoMemory,
}

/// The answer to a decision on the next undecided job.
#[derive(Clone, Copy, Debug, PartialEq, Eq)]
pub enum Admitted {
    /// It is accepted, and its ticket was put into the queue.
    Accepted {
        /// Its number.
        job: u32,
    },
    /// It is refused: its account doesn't cover its reserve, whatever the outstanding jobs will cost.
    Refused {
        /// Its number.
        job: u32,
        /// The most that it may cost.
        reserve: u64,
        /// The most that its account can have.
        high: u64,
    },
    /// It is refused for its flaw.
    Flawed {
        /// Its number.
        job: u32,
        /// The flaw.
        flaw: Flaw,
    },
    /// Nothing is decided: what the outstanding jobs cost will tell whether its account covers its reserve.
    Waits {
        /// Its number.
        job: u32,
        /// The least that its account can have.
        low: u64,
        /// The most that it can have.
        high: u64,
    },
    /// Its account covers its reserve, and the queue has no room for its ticket.
    Full {
        /// Its number.
        job: u32,
    },
    /// Each job that has arrived is decided.
    NoneArrived,
}

/// A result that the office doesn't take: it isn't that of the running job that has the ticket's number, with the ticket's
/// amount as its reserve.
#[derive(Drop)]
pub struct Stranger {
    /// What the office keeps for the ticket's number.
    pub kept: Standing,
    /// The ticket, handed back.
    pub ticket: Ticket,
    /// The result, handed back.
    pub ended: Ended,
}
