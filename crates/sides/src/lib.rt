//! The slots that values lie in, which of them an expression carries, and where secrets begin.
#![tactic(auto)]

mod carried;
mod halves;
mod laws;
mod layout;
mod leaf_table;
mod leaves;
mod marks;
mod objects;
mod outs;
mod path;
mod patterns;
mod room;
mod scope;
mod seeds;
mod slots;
mod types;

pub use carried::{carried_slots, place_slots};
pub use halves::{Sides, place};
pub use laws::objects_have_their_slots;
pub use layout::{Layout, all_slots};
pub use leaf_table::LeafTable;
pub use leaves::{leaves_like, struct_of};
pub use marks::is_in;
pub use objects::Object;
pub use outs::is_out;
pub use path::Path;
pub use room::{MOST_PATH_NUMBERS, MOST_SLOTS};
pub use scope::Scope;
pub use slots::{Owner, SlotInfo};
