//! The boots that are well formed, told from those that a hostile parent may send.
//!
//! `read_boot` gives the boot that bytes spell where it is well formed. `is_well_formed` is the test
//! alone.
#![tactic(auto)]

mod calls;
mod candidate;
mod candidates;
mod code;
mod functions;
mod globals;
mod hosts;
mod numbers;
mod objects;
mod params;
mod reading;
mod shape;
mod shapes;
mod signatures;
mod start;
mod structs;
mod well_formed;

pub use boots::BootError;
pub use reading::read_boot;
pub use well_formed::is_well_formed;
