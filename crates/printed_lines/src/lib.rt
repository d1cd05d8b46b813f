//! What a run prints is printable, where its program and its data are. It holds definitions and laws; no code of it runs.
#![tactic(auto)]

mod laws;

pub use laws::runs_print_texts;
