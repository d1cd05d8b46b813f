//! What the names of a program mean, and which types fit.
#![tactic(auto)]

mod laws;

pub use laws::{
    faults_in_order, no_values, nothing_forgotten, nothing_unknown, one_declaration,
    types_everywhere,
};
