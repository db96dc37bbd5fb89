//! A second reading of the rules for what a slave says: a monitor of three small programs, written from the pages of
//! docs/spec with no part of the tool. It is what the tool's monitor is held against. And streams for both: frames that
//! no honest slave says, made from seeds.
#![tactic(auto)]

mod bodies;
mod endings;
mod entries;
mod policies;
mod reading;
mod replies;
mod rules;
mod settings;
mod streams;
mod values;

pub use entries::{Entry, Gives, INT, LONG, Param, Pointee, Program, range_of};
pub use replies::count_replies;
pub use rules::{SecondMonitor, push_big};
pub use settings::{SETTINGS, Setting};
pub use streams::{LARGE_STREAMS, Made, large_stream};
pub use values::Pointer;
