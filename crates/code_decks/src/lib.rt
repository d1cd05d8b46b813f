//! The decks of the tables of the meaning, run by the machine: the code of each gives what its program means.
#![tactic(auto)]

mod laws;

pub use laws::{
    code_of_batch_decks, code_of_calling_decks, code_of_manual_decks, code_of_more_decks,
    code_of_running_decks,
};
