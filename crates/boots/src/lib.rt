//! Boots as bytes: their one spelling, written and read.
//!
//! Each boot has one spelling (`one_spelling`, `one_reading`), and none begins another
//! (`none_begins_another`). `boot_bytes` writes it, and `boot_of` reads the boot that bytes spell.
#![tactic(auto)]

mod fault;
mod laws;
mod reading;
mod writing;

pub use fault::BootError;
pub use laws::{none_begins_another, one_reading, one_spelling};
pub use reading::boot_of;
pub use writing::boot_bytes;
