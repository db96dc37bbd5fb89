//! What holds of every monitor of a well-formed program, whatever it is asked: its globals are numbers of their types,
//! it holds no handle, and what a call leaves is what a reply is made of. So it is while it serves: the work of a call
//! is given numbers of their types and leaves such.
#![tactic(auto)]

mod serving;

ghost use Rattle.monitor_soundness_law.specs.Laws.{BodiesLeaveNumbers, HostsLeaveNumbers};

pub use serving::{calls_are_prepared, calls_are_served, entries_are_named, monitors_begin_sound};

/// A function that is started with arguments that fit leaves numbers of their types, and its result is one of its type.
pub fn bodies_leave_numbers()
    ensures { BodiesLeaveNumbers }
{}

/// So does a host that is called.
pub fn hosts_leave_numbers()
    ensures { HostsLeaveNumbers }
{}
