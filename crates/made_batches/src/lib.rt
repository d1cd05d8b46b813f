// Batches that are made from a seed.
#![tactic(auto)]

mod batch;
mod decks;
mod draws;
mod laws;

pub use batch::make_batch;
pub use laws::made_batch_fits;
