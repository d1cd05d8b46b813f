use job_queue::Ticket;
use office::Standing;

/// How a worker's work ended.
#[derive(Drop)]
pub enum WorkEnd {
    /// The office was over.
    Over,
    /// Memory was wanting for the job of this ticket, which isn't settled.
    NoMemory(Ticket),
    /// The office doesn't keep a job of this ticket as running, or not the one whose result it was given. The ticket isn't
    /// settled.
    Unkept {
        /// The ticket.
        ticket: Ticket,
        /// What the office keeps for its number.
        kept: Standing,
    },
}
