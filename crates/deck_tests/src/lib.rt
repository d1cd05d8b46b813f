//! The tests of what runs decks: of the workers, of the audit, and of listings of code. Whole batches are tried in `batch_tests`,
//! and decks that are tried alone are jobs of the stored run of `monitor`.
#![tactic(auto)]

#[cfg(test)]
mod audited;
#[cfg(test)]
mod call_code;
#[cfg(test)]
mod cases;
#[cfg(test)]
mod listings;
#[cfg(test)]
mod reading;
#[cfg(test)]
mod statement_code;
#[cfg(test)]
mod value_code;
#[cfg(test)]
mod workers;
