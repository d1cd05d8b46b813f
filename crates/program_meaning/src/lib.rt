//! What a program means: by copying, as the language says a call is, and by environments, which agree with that. It
//! holds definitions and their laws; no code of it runs.
#![tactic(auto)]

mod laws;

pub use laws::{
    bounded_runs_end, environments_give_what_copying_gives, phrases_are_balanced,
    runs_keep_their_limits,
};
