//! The types of expressions: what names mean where one stands, what is known of it, its typed tree,
//! and its faults.
#![tactic(auto)]

mod assignments;
mod choices;
mod conversions;
mod expressions;
mod faults;
mod links;
mod meaning;
mod names;
mod operand;
mod postfixes;
mod prefixes;

pub use assignments::is_misfit;
pub use conversions::as_type;
pub use expressions::{expression, span_of};
pub use meaning::{Callable, Meaning, Object, ParamTypes, Variable};
pub use names::{Names, Scope, as_number};
pub use operand::{Elaborated, Operand};
pub use postfixes::fitted;
