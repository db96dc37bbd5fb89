//! There are marks, whatever the seeds and edges are; there are halves, slots and seeds of each program that has not
//! too many slots; and of whatever was found in a program there is a list of faults.
#![tactic(auto)]

mod faults;
mod marks;
mod slots;

pub use faults::findings_are_told;
pub use marks::there_are_marks;
pub use slots::{sides_are_of_few_slots, there_are_sides};
