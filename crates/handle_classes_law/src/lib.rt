//! Of an accepted program the slave's code never computes with a handle: its privileged slots give classes to what it
//! has, by the leaves of each object, and in these classes all of the slave's code is fine.
#![tactic(auto)]

mod objects;
mod slaves;

pub use objects::{cells_have_leaves, elements_lie_alike, fields_lie_so, leaves_are_own};
pub use slaves::{edges_join_slots, marked_worlds, sealed_cells, slave_classes};
