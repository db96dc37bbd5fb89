// What a pair starts from.
use host_table::Host;
use policy::Policy;
use pt_base::{Bytes, Listed};
use pt_core::{Boot, MonitorProgram};

/// What a pair starts from.
#[derive(Drop)]
pub struct Pair {
    /// What the slave starts from.
    pub boot: Boot,
    pub monitor: MonitorProgram,
    /// The hosts of the table with the input.
    pub hosts: Host,
    /// The policy at its start.
    pub policy: Policy,
    /// The name of each function of the program, by its number.
    pub names: Listed<Bytes>,
}
