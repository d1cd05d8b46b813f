//! Programs that are spelled by printable cards hold printable texts. It holds definitions and laws; no code of it runs.
#![tactic(auto)]

mod laws;

pub use laws::programs_hold_texts;
