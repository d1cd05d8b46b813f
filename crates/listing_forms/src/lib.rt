//! The listing of a batch has the form by which it is taken apart. It holds definitions and laws; no code of it runs.
#![tactic(auto)]

mod laws;

pub use laws::{batches_are_apart, inputs_hold, listings_have_form};
