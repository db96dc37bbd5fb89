// Where the work of calls is done.
use crate::gate::BytesGate;
use core_machine::Machine;

/// The machine of a monitor, and its hosts.
#[derive(Drop)]
pub(crate) struct Bench {
    pub machine: Machine,
    pub gate: BytesGate,
}
