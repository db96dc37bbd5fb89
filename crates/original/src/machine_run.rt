// The run of a typed program on the step machine: lowered in threads, entered at main, with the hosts of a
// table behind its gate. No policy is asked.

mod asking;
mod host_gate;
mod lowered;
mod marks;
mod running;

pub use running::{Ran, run};
