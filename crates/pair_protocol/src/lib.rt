//! Two sides that talk: a slave that says messages and may wait for the reply to the last of them, and a monitor that
//! serves messages one by one. What they are doesn't matter here. It holds definitions: the slave under a list of
//! replies, the monitor over a list of messages, the pair in which each message is served at once, the pair with a
//! queue under a window and the answers of a chooser, and a link in memory. And the laws of both: they come to the
//! same, whatever the order of their turns.
#![tactic(auto)]

mod order;

pub use order::{
    adders_end, every_order_ends, first_parts_agree, first_parts_begin, honest_peers_are_expected,
    links_are_whole, orders_are_expected, pair_is_described, pairs_are_honest, parents_reach,
    slaves_are_counted,
};
