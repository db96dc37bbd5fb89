//! Host tables: what stands for the hosts of a program, and how they answer calls.
#![tactic(auto)]

mod answer;
mod call;
mod entry;
mod fault;
mod host;
mod items;
mod kind;
mod part;
mod reading;
mod writing;

pub use fault::{HostError, HostFault};
pub use host::Host;
pub use reading::{is_input, read_host};

/// A host table may have this many bytes.
pub const TABLE_LIMIT: usize = 1_048_576;
