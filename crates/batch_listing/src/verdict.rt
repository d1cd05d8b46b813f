ghost use Rattle.std.specs.Prelude.{◌≡◌, ◌≤◌, ℕ, slice_index};
ghost use Rattle.account_book.specs.Charges.{charge};
ghost use Rattle.algolw_meaning.specs.Running.{job_result};
ghost use Rattle.batch_listing.specs.Listing.{verdict};

use account_book::{Book, reserve_of};
use deck_reader::{Flaw, Job};

/// What is decided of a job at its place.
#[derive(Clone, Copy, Debug, PartialEq, Eq)]
pub enum Verdict {
    /// It is refused for its flaw.
    Flawed(Flaw),
    /// It is refused, since its reserve is above its account's balance.
    Refused { reserve: u64, balance: u64 },
    /// It is run, and this account pays.
    Accepted(u32),
}

/// The decision on a job where these are the balances. The account that pays can pay what the job is charged.
pub fn decide(book: &Book, job: &Job) -> Verdict
    ensures verdict { result ≡ verdict (slice_index book.now.balances) job.now }
    ensures covered { (account : ℕ) → result ≡ Verdict.Accepted account
        → charge (job_result job.now).counts ≤ slice_index book.now.balances account }
{
    let reserve = reserve_of(job);
    match (job.flaw, job.account) {
        (Some(flaw), _) => Verdict::Flawed(flaw),
        // A job without a flaw has an account.
        (None, None) => Verdict::Refused {
            reserve,
            balance: 0,
        },
        (None, Some(account)) => {
            let balance = book.balance(account);
            if balance >= reserve {
                Verdict::Accepted(account)
            } else {
                Verdict::Refused { reserve, balance }
            }
        }
    }
}
