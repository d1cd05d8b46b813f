//! The instructions of the machine that work on values, variables, arrays, records, what is printed and what is read: a
//! function for each, over what a run holds.
#![tactic(auto)]

mod arrays;
mod assigning;
mod editing;
mod field_values;
mod held;
mod names;
mod next;
mod operators;
mod record_rows;
mod state;
mod strings;
mod variables;
mod widths;

pub use arrays::{bounds, declare_array, element, element_of, subarray};
pub use assigning::{assign, assign_back, make};
pub use editing::{io_control, read, read_card, write};
pub use held::{Halt, Held, truth};
pub use names::{cell_out, entry_out, integer_out, start_out, thunk_out, wanted};
pub use next::{Given, Next, Registers, enter, go_to, onward};
pub use operators::{binary, integer_operation, integers_compared, is_class, relation, unary};
pub use record_rows::{field, make_record, make_record_alone};
pub use state::{Limits, StandardVariables, State};
pub use strings::part;
pub use variables::{constant, push, reserve, tick, variable};
pub use widths::{set_width, standard};
