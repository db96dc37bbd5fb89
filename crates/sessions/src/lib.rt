//! One monitor for several slaves: a hub owns a program once, and each of its sessions has a store, globals, hosts, a policy's
//! state and turns of its own. `Hub` opens sessions, serves the messages of any of them in any order, whoever says them, and closes
//! them. A session that ends or breaks a rule is closed, and no message of one session changes another: what a session is told, and
//! what it writes, is what its own messages come to alone.
#![tactic(auto)]

mod error;
mod hub;
mod laws;
mod seats;

pub use error::HubError;
pub use hub::{Hub, MOST_OPEN};
pub use laws::{
    hostile_sessions_are_shut_out, hubs_are_kept, others_dont_count, sessions_are_alone,
    sessions_are_alone_from_their_opening,
};
