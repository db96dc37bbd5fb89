//! What `check`, `local` and `run` find in a program, and in its host table and its policy before they begin, for people
//! with an editor open: each fault with its line and column and with its line of the text.
#![tactic(auto)]

mod explanations;
mod files;
mod host_blocks;
mod laws;
mod policy_blocks;
mod refusal_blocks;
mod sentences;

pub use explanations::explain_pair;
pub use files::FileNames;
pub use laws::{
    explained_is_reported, faulty_line_is_shown, first_bytes_are_enough, held_passes,
    refusals_are_told,
};
pub use refusal_blocks::explain_refusal;
