//! The slave as it runs: its program on the step machine, behind a gate that sends away what isn't its to do, the messages
//! that it says, and the replies that it waits for.
//!
//! A slave is that of the definitions (`IsSlave`), step by step and for any number of steps, whoever made its boot and
//! whatever replies it is given. A reply that its call can't have is refused and changes nothing.
#![tactic(auto)]

mod beginning;
mod calling;
mod doing;
mod engine;
mod gate;
mod messages;
mod ran;
mod returning;
mod signed;
mod slave;
mod ways;
mod writing;

pub use doing::Mode;
pub use ran::Ran;
pub use slave::Slave;
