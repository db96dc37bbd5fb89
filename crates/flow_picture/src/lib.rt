//! The flows of a program as a picture: where values lie, along which they move, where secrets begin and how
//! far they come, and where the program breaks a rule.
#![tactic(auto)]

mod arrow;
mod arrow_lines;
mod arrows;
mod clusters;
mod drawing;
mod fault_nodes;
mod functions;
mod gathering;
mod labels;
mod laws;
mod node;
mod node_lines;
mod objects;
mod order;
mod pictured;
mod pictures;
mod room;
mod search;
mod secrets;
mod shown;
mod steps;
mod uses;

pub use laws::{first_bytes_are_enough, objects_are_shown, programs_have_pictures};
pub use pictured::Pictured;
pub use pictures::picture;
pub use room::MOST_NODES;
