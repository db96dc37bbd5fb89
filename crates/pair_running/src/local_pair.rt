// The pair in one process: from the texts of a program, its host table, its policy and its input to what both its
// halves write together and how they end. The texts go through lexer, parser, types, host table, policy, flows and input
// first, and the first of them that has a fault refuses them. What is written and how it ends is what is expected of the
// program itself under the policy, and it is a whole run of the pair under the answers that were taken from the chooser.

mod laws;
mod local;
mod ran;
mod running;
mod sink;

pub use laws::{first_bytes_are_enough, texts_have_one_outcome};
pub use local::run;
pub use ran::Ran;
