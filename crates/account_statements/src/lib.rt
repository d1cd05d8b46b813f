//! The statement of an account, which depends on that account alone.
#![tactic(auto)]

mod laws;
mod lines;
mod statement;

pub use laws::{decisions_by_account, own_balances, results_by_content, statements_by_account};
pub use statement::{Statement, no_account, statement_of};
