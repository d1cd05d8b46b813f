//! When a phrase that is executed fits what it is wanted for, and that what fits never goes wrong. It holds definitions
//! and laws; no code of it runs.
#![tactic(auto)]

mod laws;

pub use laws::{what_fits_never_goes_wrong, what_passes_never_goes_wrong};
