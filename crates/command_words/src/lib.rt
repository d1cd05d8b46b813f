// The command words: what they tell the monitor to do.
#![tactic(auto)]

mod laws;
mod numbers;
mod options;
mod order;

pub use laws::words_say_one_order;
pub use order::{Order, WordsError, read_words};
