//! Which code of the normal form is well formed, tested in time that grows with the code.
//!
//! The code may be anybody's: nothing is taken for granted of it but that the numbers of functions
//! and of globals are in order.
#![tactic(auto)]

mod expressions;
mod fields;
mod names;
mod operators;
mod statements;
mod types;

pub use names::{Names, Scope, signature_of};
pub use statements::body_fits;
