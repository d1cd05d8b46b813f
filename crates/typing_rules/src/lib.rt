//! The rules of types, row by row: what a phrase gives, by what its parts give.
#![tactic(auto)]

mod actuals;
mod class_set;
mod conditions;
mod meanings;
mod rows;
mod types;
mod verdicts;

pub use actuals::{Reading, Wanted, all_read, list_row, phrase_part, subarray_part, subarray_row};
pub use class_set::ClassSet;
pub use meanings::{FormalType, Meaning, Part, alone_row, base_row, gives_of, part_row};
pub use rows::{
    Left, assert_row, assign_row, bound_row, case_do_row, case_value_row, for_row, if_else_row,
    if_row, integer_row, is_row, item_row, link_row, negated_row, procedure_row, program_row,
    relation_row, while_row,
};
pub use types::{PhraseType, ValueType};
pub use verdicts::{NoType, Verdict};
