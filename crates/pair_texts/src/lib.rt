//! Where the pair begins: from the texts of a program, its host table, its policy and its input to what the slave and
//! the monitor start from. The texts go through lexer, parser, types, host table, policy, flows and input first, and the
//! first of them that has a fault refuses them. Several pairs of one program share all but the stage of inputs.
#![tactic(auto)]

mod beginning;
mod laws;
mod models;
mod names;
mod pair;
mod sharing;

pub use beginning::{Beside, begin};
pub use laws::{first_bytes_are_enough, passed_texts_begin, texts_have_one_outcome};
pub use pair::Pair;
pub use sharing::{Shared, share};
