//! The step machine of the normal form.
#![tactic(auto)]

mod acting;
mod building;
mod call;
mod calls;
mod compiled;
mod counts;
mod fast;
mod fast_calls;
mod frame;
mod frames;
mod gate;
mod leaves;
mod machine;
mod memory;
mod program_counter;
mod state;
mod statements;
mod stepped;
mod table;

pub use gate::{Gate, Way};
pub use machine::Machine;
pub use stepped::{Stepped, Went};
