//! The normal form: programs as single steps, in which calls are statements and expressions only
//! read.
#![tactic(auto)]

mod boot;
mod copy_expression;
mod copy_program;
mod copy_statement;
mod expression;
mod function;
mod global;
mod laws;
mod monitor;
mod place;
mod program;
mod slave;
mod statement;
mod types;
mod values;

pub use boot::Boot;
pub use expression::Expr;
pub use function::CoreFn;
pub use global::GlobalVar;
pub use laws::{boots_add_hosts, programs_are_shared, whole_programs_may_serve};
pub use monitor::{Bind, Entry, MonitorProgram};
pub use place::{Place, Root};
pub use program::{CoreProgram, Signatures};
pub use slave::SlaveProgram;
pub use statement::Stmt;
pub use types::{element_of, pointee_type};
pub use values::{number, status};
