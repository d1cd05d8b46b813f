//! What the names of a program stand for while its code is made.
//!
//! A name goes by its number. A block, a procedure's body and a FOR declare their names before anything inside them is
//! coded, the last one first, so that what is declared is the context of the definitions, name by name; behind them the
//! names are taken back.
#![tactic(auto)]

mod blocks;
mod here;
mod name_table;
mod standings;
mod symbols;

pub use blocks::{Cursor, entries_of, entry_count, procedure_count, procedures_of};
pub use here::{Here, further, number};
pub use standings::{Class, Entry, Procedure, Standing};
pub use symbols::{SymbolMark, Symbols};
