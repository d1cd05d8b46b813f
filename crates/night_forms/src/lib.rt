//! A night joined from its plan and the listings of its parts. It holds definitions and laws; no code of it runs.
#![tactic(auto)]

mod laws;

pub use laws::{
    balances_fall, closings_are_lines, closings_state_balances, idle_chains_keep, jobs_are_named,
    night_closes, night_joined, number_comes_off, numbers_come_off, parts_are_apart,
    parts_are_counted, rests_begin, window_joined,
};
