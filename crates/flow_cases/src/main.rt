//! Runs rows of lists against the calls around the flow rules: how far a secret comes in a graph, the work on a
//! program's functions in threads, what is explained of texts and of pairs of them, pictures, outlines and audits.
#![tactic(auto)]

mod audited;
mod explained;
mod outlined;
mod paths;
mod pictured;
mod session;
mod shown_lines;
mod threads;

use anyhow::Result;
use case_rows::{STACK, show_lists};
use session::Session;
use std::thread::Builder;

fn main(rt: HostRuntime) -> Result<()> {
    Builder::new()
        .stack_size(STACK)
        .spawn(&rt, move || {
            let mut session = Session::new(rt.alloc());
            show_lists(&rt, &mut session)
        })?
        .join(&rt)
}
