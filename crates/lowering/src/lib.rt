//! How typed programs are brought into the normal form: the definitions, one equation a form, and the
//! parts of the code that call none of its cycles.
//!
//! A call that gives a `Result` answers [`std::alloc::AllocError`] where an allocation was refused,
//! or where there would be more than 2^32 variables, structs or fields of one kind. What was being
//! made is then of no further use.
#![tactic(auto)]

pub mod assignments;
pub mod flow;
pub mod leaves;
pub mod logical;
pub mod loops;
pub mod names;
pub mod operators;
pub mod output;
pub mod place;
pub mod purity;
pub mod switches;
pub mod temporary;
pub mod types;
