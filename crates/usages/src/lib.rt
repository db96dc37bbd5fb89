//! All that the body of a function evaluates, each expression with what its value is used for. And laws: each
//! expression has exactly one usage.
#![tactic(auto)]

mod bodies;
mod conversions;
mod expressions;
mod laws;
mod lent;
mod numbers;
mod usage;

pub use bodies::usages_in;
pub use conversions::keeps_value;
pub use laws::{body_usages_are_its_expressions, outermost_expressions_stand};
pub use lent::{Usages, usages_of};
pub use usage::{How, Usage};
