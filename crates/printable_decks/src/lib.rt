//! What the jobs of a batch print is printable. It holds definitions and laws; no code of it runs.
#![tactic(auto)]

mod laws;

pub use laws::{batches_print_texts, jobs_print_texts};
