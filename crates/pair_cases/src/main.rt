//! Runs rows of lists against both ends of a pair: what a monitor makes of frames that a peer gives, what it does with
//! streams from seeds that no honest slave says, held against a second reading of the rules, and what a slave says to
//! replies; and what a hub makes of its sessions' messages.
#![tactic(auto)]

mod answers;
mod batches;
mod checksum;
mod crowds;
mod frames;
mod hostile;
mod hubs;
mod seen;
mod session;
mod slaves;
mod streams;
mod supervised;
mod texts;

use anyhow::Result;
use case_rows::{STACK, show_lists};
use session::Session;
use std::thread::Builder;

fn main(rt: HostRuntime) -> Result<()> {
    Builder::new()
        .stack_size(STACK)
        .spawn(&rt, move || {
            let mut session = Session::new(rt.alloc());
            show_lists(&rt, &mut session)
        })?
        .join(&rt)
}
