//! Lines and columns of a text, as editors count them, and bytes as they are shown.
#![tactic(auto)]

mod excerpts;
mod finding;
mod heads;
mod lines;
mod pieces;
mod place;
mod shown;
mod starts;

pub use heads::{push_number, push_place};
pub use lines::Lines;
pub use place::Place;
pub use shown::{push_shown, shown_byte};
