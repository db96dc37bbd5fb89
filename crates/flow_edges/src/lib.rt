//! The values that move in a function, and the edges along which they do: from slot to slot.
#![tactic(auto)]

mod along;
mod distinct;
mod edges;
mod items;
mod kept_items;
mod moves;
mod slot_numbers;
mod targets;
mod within;

pub use along::{MOST_EDGES, edges_along};
pub use distinct::first_of_each;
pub use edges::moves_of;
pub use kept_items::KeptItems;
pub use moves::Move;
pub use slot_numbers::behind;
pub use targets::target_slot;
