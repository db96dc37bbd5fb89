//! What lifting changes in a run: calls of new functions are seen and take turns, and nothing else is different.
#![tactic(auto)]

mod laws;

pub use laws::{lifting_changes_nothing_else, notes_change_nothing};
