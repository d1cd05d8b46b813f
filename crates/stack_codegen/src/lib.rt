//! The code of a program, made straight from the program, exactly as the definitions have it: there is no tree in between.
//!
//! The functions go once over the program's tree. Each kind of phrase has one of its own, which appends the code of that
//! line of the table *A phrase and its code*, and answers how many marks the phrase may have in each other. What a name
//! stands for is found by its number, in `Symbols`; coding a phrase leaves that as it was.
//!
//! A jump over what isn't coded yet is put right when that is (`Code::replace`). Where a procedure or a labelled item stands
//! is wanted before it is coded, and from anywhere in its block: so it goes by the number of a target, one for each
//! procedure and each item, and `Code::link` puts the instruction's number for each of them, at the end and once.
#![tactic(auto)]

mod actuals;
mod blocks;
mod calls;
mod compiling;
mod lists;
mod loops;
mod names;
mod phrases;
mod writes;

pub use compiling::compile;
