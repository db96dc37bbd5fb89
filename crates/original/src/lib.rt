//! The original program: from its text, its host table and its input to what hosts write in its run and how that ends.
//! The texts go through lexer, parser, types, host table and input first, and the first of them that has a fault refuses
//! them. No policy is asked. The program is run on the step machine: lowered in threads, entered at main, with the hosts of
//! a table behind its gate.
#![tactic(auto)]

mod laws;
mod machine_run;
mod ran;
mod running;

pub use laws::{first_bytes_are_enough, orig_is_never_refused, texts_have_one_outcome};
pub use ran::Ran;
pub use running::run;
