//! A deck can't change what its library means: what is found of a library is the same for every deck. It holds definitions and
//! laws; no code of it runs.
#![tactic(auto)]

mod laws;

pub use laws::{
    faults_are_parted, faults_stand_in_trees, library_is_the_same, library_keeps_its_trees,
    trees_of_decks_stand,
};
