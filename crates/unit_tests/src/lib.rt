//! Nothing but tests, of the crates that stand below the compiler and the machine: a crate with tests is checked twice, so theirs
//! stand here together. What they try is mostly a table, which is text that a loop reads.
#![tactic(auto)]

#[cfg(test)]
mod accounts;
#[cfg(test)]
mod batches;
#[cfg(test)]
mod boards;
#[cfg(test)]
mod cards;
#[cfg(test)]
mod decisions;
#[cfg(test)]
mod displays;
#[cfg(test)]
mod jobs;
#[cfg(test)]
mod libraries;
#[cfg(test)]
mod lists;
#[cfg(test)]
mod office_day;
#[cfg(test)]
mod options;
#[cfg(test)]
mod ports;
#[cfg(test)]
mod rows;
#[cfg(test)]
mod statements;
#[cfg(test)]
mod summaries;
#[cfg(test)]
mod tickets;
#[cfg(test)]
mod tokens;
