//! The lowering of typed functions into the normal form, equal to its definitions, one equation a
//! form.
#![tactic(auto)]

mod declarations;
mod expressions;
mod flow;
mod functions;
mod items;
mod loops;
mod outermost;
mod program;
mod statements;

pub use functions::lower_function;
pub use program::whole_program;
