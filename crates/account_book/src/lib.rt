// The accounts of a batch: what jobs cost, and what is left.
#![tactic(auto)]

mod book;
mod charges;
mod decision;
mod laws;

pub use book::Book;
pub use charges::{Counts, charge_of, reserve_of};
pub use decision::Decision;
pub use laws::{charge_within, table_by_places};
