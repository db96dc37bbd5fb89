//! The outside as it is: the files of the system, a standard stream, and a child process or the parent at the other end of
//! pipes. Nothing is told of what these hold, take or give; a count of faults is kept of each.
#![tactic(auto)]

mod child;
mod folder;
mod output;
mod sink;

pub use child::Child;
pub use folder::RealFolder;
pub use sink::RealSink;
