//! A program without faults fits, and so never goes wrong. It holds definitions and laws; no code of it runs.
#![tactic(auto)]

mod laws;

pub use laws::{programs_without_faults_are_never_wrong, programs_without_faults_fit};
