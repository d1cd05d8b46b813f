//! The instructions of the machine that enter and leave texts, call procedures, and compare and prepare actuals: a function
//! for each, over what a run holds.
#![tactic(auto)]

mod comparing;
mod formal_calls;
mod texts;

pub use comparing::{find_text, text_at};
pub use formal_calls::{call_through, compare, hand_on, place_back, prepare};
pub use texts::{
    aside, call, end, find_procedure, make_thunk, procedure_at, return_back, use_formal,
};
