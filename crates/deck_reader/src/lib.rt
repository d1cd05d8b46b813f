// A batch of cards: its accounts, its libraries and its jobs.
#![tactic(auto)]

mod accounts;
mod batch;
mod bytes;
mod cleaning;
mod forms;
mod laws;
mod library;
mod listed;
mod open_job;
mod open_library;
mod options;
mod queue;
mod reader;
mod reading;

pub use accounts::find_account;
pub use batch::{Account, Batch, Flaw, Job};
pub use bytes::split_once;
pub use forms::name_of;
pub use laws::{
    account_card_by_parts, accounts_stay, equal_jobs_are_same, job_card_by_parts, jobs_stay,
    libraries_stay, library_card_by_parts, pieces_joined,
};
pub use library::{KeptLibrary, Library};
pub use listed::Listed;
pub use reader::{FeedError, Reader};
pub use value_ops::{Card, Name};
