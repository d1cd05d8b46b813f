//! The tests of whole batches, by `run_monitor`. What runs single decks is tried in `deck_tests`.
#![tactic(auto)]

#[cfg(test)]
mod accounts;
#[cfg(test)]
mod batches;
#[cfg(test)]
mod cases;
#[cfg(test)]
mod cut_batches;
#[cfg(test)]
mod faults;
#[cfg(test)]
mod gates;
#[cfg(test)]
mod runs;
#[cfg(test)]
mod statements;
