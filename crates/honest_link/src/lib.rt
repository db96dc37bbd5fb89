//! Links that tell whoever used them what an honest peer would have said.
#![tactic(auto)]

mod witness;

pub use witness::{Witness, Witnessed};
