//! The monitor's side of a pair: it sends the slave its boot over a link, and serves what comes back until an
//! end, whatever the link is and whatever it gives.
#![tactic(auto)]

mod fault;
mod laws;
mod sending;
mod serving;
mod supervising;

pub use fault::RunFault;
pub use laws::{few_are_handled, frames_are_messages, replies_are_spelled, talks_are_frames};
pub use supervising::supervise;
