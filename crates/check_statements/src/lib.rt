//! The types of statements: initialisers, the declarations of variables, and statements, with their
//! typed trees and faults.
#![tactic(auto)]

mod constants;
mod context;
mod declarations;
mod global_initialisers;
mod initialisers;
mod leaves;
mod outermost;
mod seen;
mod statements;
mod switches;
mod walk;

pub use global_initialisers::global_values;
pub use statements::check_block;
pub use walk::Walk;
