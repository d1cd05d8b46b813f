//! The sections of jobs have the form by which a listing is taken apart. It holds definitions and laws; no code of it runs.
#![tactic(auto)]

mod laws;

pub use laws::sections_have_form;
