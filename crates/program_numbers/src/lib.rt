//! The program in memory that a phrase is of which everything is found: each name, record class, set of classes and statement
//! by its number.
#![tactic(auto)]

mod blocks;
mod class_table;
mod compounds;
mod declarations;
mod nodes;
mod numbering;
mod place_numbers;
mod programs;
mod rows;
mod table_builder;

pub use programs::number_program;
