//! Worked examples of values, of what is read and printed, of dumps and of record classes, as laws. It holds tables; no code of
//! it runs.
#![tactic(auto)]

mod laws;

pub use laws::{
    bits_give, classes_are_made, integers_give, items_are_read, lines_are_printed, lines_are_shown,
    sets_are_made, strings_give,
};
use value_ops::{Text, Value};

// A text is 256 bytes and its length; a value is a text and which variant it is.
const _: () = prove!(size_of::<Text>() == 264);

const _: () = prove!(size_of::<Value>() == 272);
