//! Handles, which stand for privileged values outside the monitor, and the store of those values.
#![tactic(auto)]

mod handle;
mod names;
mod store;

pub use handle::Handle;
pub use names::Names;
pub use store::Store;
