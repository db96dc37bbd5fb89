// The pair with a slave that is started: from the texts of a program, its host table, its policy and its input to how the
// run of its monitor ends, which serves the peer of a spawner over a link. The texts go through lexer, parser, types, host
// table, policy, flows and input first, and the first of them that has a fault refuses them. Whatever the peer gives, what
// is written and sent and the end are what serving it comes to; and where it is honest, what is expected of the program
// itself under the policy.

mod laws;
mod outcome;
mod running;
mod spawned;

pub use laws::first_bytes_are_enough;
pub use outcome::Outcome;
pub use spawned::run;
