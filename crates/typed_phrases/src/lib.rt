//! What a phrase gives by what its parts give, kind by kind.
#![tactic(auto)]

mod actuals;
mod assignments;
mod cases;
mod designators;
mod items;
mod operators;
mod settings;
mod statements;

pub use actuals::{Application, Given, list_given, read};
pub use assignments::{assigned_verdict, left_of};
pub use cases::{both_give, case_do_verdict};
pub use designators::Front;
pub use items::{has_labels, item_verdict, then_item};
pub use operators::{Prefix, given, linked, noted, prefixed_verdict, relation_verdict};
pub use settings::{is_setting, setting_part};
pub use statements::{
    Phrases, Range, case_value_verdict, for_list_verdict, goto_verdict, if_else_verdict,
    if_verdict, is_verdict, range_verdict, while_verdict,
};
