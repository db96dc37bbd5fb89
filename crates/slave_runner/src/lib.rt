//! The slave's side of a pair, as a process of its own runs it: it reads a boot over a link, runs the boot's slave, sends what
//! that says and takes the replies that it waits for, whatever the link is and whatever it gives.
//!
//! What is sent, and how it ends, is what the frames of the bytes come to that were given (`Comes` of `specs/Comes.antt`): the
//! spellings of all that the slave says with the replies among them. More bytes are asked for only where those given leave it
//! open and all was sent that is said with them (`InTurn`). What needs no reply is gathered, so it costs no call of the link.
#![tactic(auto)]

mod beginning;
mod fault;
mod hearing;
mod laws;
mod one_outcome;
mod saying;
mod taking;
mod working;

pub use fault::WorkFault;
pub use laws::last_messages_end;
pub use one_outcome::what_a_slave_comes_to_is_one;
pub use working::work;
