//! The pair at work: both halves in one process, each in its own, those of a generated program, and those of several
//! inputs by turns; and over which talks a peer is honest. And that a talk over a link in memory is a whole run of the
//! pair.
#![tactic(auto)]

pub mod generated_pair;
pub mod honest_talks;
pub mod local_pair;
pub mod memory_talks;
pub mod served_pairs;
pub mod spawned_pair;
pub mod talks_exist;
