//! The lines that report why texts aren't taken further, and how runs end.
#![tactic(auto)]

mod ends;
mod flow_faults;
mod host_faults;
mod refusals;

pub use ends::{end_line, end_status};
pub use flow_faults::{flow_lines, push_fault, shows_way};
pub use refusals::refusal_lines;
