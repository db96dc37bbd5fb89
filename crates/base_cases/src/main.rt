//! Runs rows of lists against the calls that take texts, and against what stands in memory and on the wire:
//! tokens, programs and their types, arithmetic, host tables and policies; blocks, handles and objects, frames
//! of messages, boots.
#![tactic(auto)]

mod boot_rows;
mod copies;
mod faults;
mod frames;
mod hosts;
mod marks;
mod messages;
mod numbers;
mod objects;
mod policies;
mod programs;
mod session;
mod stores;
mod tokens;
mod typed;

use anyhow::Result;
use case_rows::{STACK, show_lists};
use session::Session;
use std::thread::Builder;

fn main(rt: HostRuntime) -> Result<()> {
    Builder::new()
        .stack_size(STACK)
        .spawn(&rt, move || {
            let mut session = Session::new(rt.alloc());
            show_lists(&rt, &mut session)
        })?
        .join(&rt)
}
