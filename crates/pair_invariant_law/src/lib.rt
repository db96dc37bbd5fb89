//! What the pair in which each message is served at once has to do with the run of the whole program: an invariant of
//! the two. It holds definitions, and the law that the largest set of slaves of which it may speak is one. And the laws
//! below it: the gates of a served body and of a slave agree with the whole's, and both programs of an accepted program
//! are halves of it.
#![tactic(auto)]

mod accepted;
mod monitor_gates;
mod slave_gates;

ghost use Rattle.pair_invariant_law.specs.Slaves.{AreKept, Stays};

pub use accepted::accepted_programs_have_halves;
pub use monitor_gates::{
    bodies_are_plain, bodies_calls_fit, bodies_gates_agree, hosts_keep_models,
};
pub use slave_gates::{
    gathering_steps_alike, hosts_go_on_fitting, slave_gates_agree, slave_gates_fit,
    slaves_write_once, steps_call_once,
};

/// A slave that stays sound, and computes with no handle, does so behind a step and behind a reply.
pub fn slaves_stay()
    ensures { AreKept Stays }
{}
