//! A program without faults is one that may be compiled. It holds definitions and a law; no code of it runs.
#![tactic(auto)]

mod laws;

pub use laws::programs_without_faults_are_compilable;
