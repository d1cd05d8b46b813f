//! The accounts of a batch as a text in TOML: a night's opening balances are read from one, and its closing balances are
//! written as one.
#![tactic(auto)]

mod laws;
mod reading;
mod writing;

pub use laws::one_list;
pub use reading::{AccountsError, read_accounts};
pub use writing::accounts_bytes;
