//! A slave in memory as a link: it makes its steps and hands its messages over as a chooser says, and it hears what is sent.
//!
//! What goes over the link is what the definitions of a link in memory say (`Came`), under the answers that were taken from
//! the chooser and no others.
#![tactic(auto)]

mod handing;
mod hearing;
mod link;
mod rest;
mod slave_end;
mod slave_half;
mod spelling;

pub use link::MemoryLink;
