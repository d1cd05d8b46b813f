//! Copied actuals: how one is entered in the environment in which it was written, and left.
#![tactic(auto)]

mod laws;
mod links;
mod thunks;

pub use cell_store::Closed;
pub use laws::leaving_gives_back;
pub use links::text_out;
pub use thunks::{enter_thunk, leave_thunk};
