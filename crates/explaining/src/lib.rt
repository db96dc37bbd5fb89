//! What `check` finds, for people with an editor open: each fault with its line and column, its line of the
//! text with a mark under it, by which way a secret came there and how it may be mended.
#![tactic(auto)]

mod explanations;
mod flow_blocks;
mod front_blocks;
mod holdings;
mod homes;
mod laws;
mod origins;
mod parts;
mod sentences;
mod spans;
mod turns;
mod ways;

pub use explanations::explain;
pub use flow_blocks::flow_fault_blocks;
pub use front_blocks::{lex_block, parse_block, type_blocks};
pub use holdings::holding_lines;
pub use laws::first_bytes_are_enough;
pub use spans::push_span_excerpt;
