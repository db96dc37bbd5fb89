//! Runs rows of lists against the calls that split programs: what each half has, the slave's boot, and both
//! halves as texts that read back.
#![tactic(auto)]

mod halves;
mod session;
mod texts;

use anyhow::Result;
use case_rows::{STACK, show_lists};
use session::Session;
use std::thread::Builder;

fn main(rt: HostRuntime) -> Result<()> {
    Builder::new()
        .stack_size(STACK)
        .spawn(&rt, move || {
            let mut session = Session;
            show_lists(&rt, &mut session)
        })?
        .join(&rt)
}
