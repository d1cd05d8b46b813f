//! A night cut into parts, each a batch that the monitor can run: by its accounts into chains, and by the order of its jobs into
//! windows.
#![tactic(auto)]

mod accounts;
mod chains;
mod cutter;
mod cutting;
mod jobs;
mod laws;
mod libraries;
mod lines;
mod night;
mod openings;
mod payers;
mod rows;
mod runs;
mod shelf;
mod stop;
mod window;
mod words;

pub use accounts::{night_accounts, read_accounts};
pub use chains::chains_for;
pub use cutting::cut_cards;
pub use laws::{chains_fit, jobs_are_the_nights, parts_fit, plan_is_whole, windows_are_the_jobs};
pub use night::cut_night;
pub use shelf::{NightFile, Part, Shelf};
pub use stop::Stop;
