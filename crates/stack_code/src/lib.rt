//! The stack machine: its instructions, its state, the table of what each instruction does, and which code may be run, as
//! definitions with their laws; and code as it is held in memory. No code of it runs by itself.
#![tactic(auto)]

mod calls;
mod code;
mod heads;
mod instructions;
mod laws;
mod limits;
mod linking;
mod types;

pub use calls::ComparedCall;
pub use code::{Code, ProgramTables};
pub use heads::{CodedName, Formal, FormalType, ProcedureHead, Reading, Stars, TextHead};
pub use instructions::{Coded, Constant, Instr, Mode, Purpose, Source};
pub use laws::{
    code_is_made, displays_are_links, numbers_are_told, outcomes_are_one, outcomes_stay,
    rows_are_not_stuck,
};
pub use types::{is_same, is_variable_of};
