//! Where handles go in a slave of an accepted program: it computes with none, whatever replies it is given, and asks
//! with handles under marks alone.
#![tactic(auto)]

mod asked;
mod kept;

pub use asked::asked_handles_stand;
pub use kept::{handles_lie_under_marks, no_handle_is_computed_with};
