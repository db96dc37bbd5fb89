//! The monitor as it runs: it serves what a peer says, whoever that is.
//!
//! A message is held against the rules, the policy decides on a guarded call, and then a host answers or a function's body runs on
//! the machine, with values in the place of handles. What comes back as a handle is kept, and what hosts write is handed out.
//! `serve` of the pair's definitions says what each message comes to; contracts see a monitor by `IsMonitor` of
//! `specs/Monitors.antt`. A `Seat` is a monitor without its program: several of them may share one.
#![tactic(auto)]

mod asking;
mod bench;
mod blocks;
mod call;
mod calls;
mod gate;
mod handled;
mod marks;
mod monitor;
mod seat;
mod serving;
mod state;
mod work;
mod worked;

pub use handled::Handled;
pub use monitor::Monitor;
pub use seat::Seat;
pub use serving_rules::PeerRule;
