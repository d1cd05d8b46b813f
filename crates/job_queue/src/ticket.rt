//! What stands in the queue.
ghost use Rattle.std.specs.Prelude.{◌≡◌, ◌<◌, ◌≤◌, ◌^◌};

/// An accepted job's number, and the amount that is reserved for it.
#[derive(Debug, Drop)]
pub struct Ticket {
    number: u32,
    amount: u64,
    pub ghost numbered: { number < 2 ^ 32 },
    pub ghost fits: { amount ≤ 999999999 },
}

impl Ticket {
    pub fn new(number: u32, amount: u64) -> Ticket
        requires { amount ≤ 999999999 }
        ensures number { result.number ≡ number }
        ensures amount { result.amount ≡ amount }
    {
        Ticket { number, amount }
    }

    /// The job's number.
    pub fn number(&self) -> u32
        ensures { result ≡ self.now.number }
    {
        self.number
    }

    /// What is reserved for it.
    pub fn amount(&self) -> u64
        ensures { result ≡ self.now.amount }
    {
        self.amount
    }
}
