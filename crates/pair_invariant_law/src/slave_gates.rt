// The gates of a slave and of the whole program agree: what the slave calls itself goes on in the whole alike, and leaves the
// monitor's hosts and the policy as they are. A step makes at most one call, so that it writes at most once.

ghost use Rattle.pair_invariant_law.specs.SlaveGatesLaws.{GatheringStepsAlike, HostsGoOnFitting, SlaveGatesAgree, SlaveGatesFit, SlavesWriteOnce};
ghost use Rattle.pair_invariant_law.specs.SlaveGatesOnce.{StepsCallOnce};

/// In a step at most one call goes through the gate, in a turn.
pub fn steps_call_once<G>()
    ensures { StepsCallOnce G }
{}

/// The hosts of the whole go on fitting.
pub fn hosts_go_on_fitting()
    ensures { HostsGoOnFitting }
{}

/// The slave's gate fits.
pub fn slave_gates_fit()
    ensures { SlaveGatesFit }
{}

/// The slave's gate agrees with the whole's.
pub fn slave_gates_agree()
    ensures { SlaveGatesAgree }
{}

/// The gate that gathers what was written steps as the slave's own.
pub fn gathering_steps_alike()
    ensures { GatheringStepsAlike }
{}

/// In a step the slave's hosts write at most once.
pub fn slaves_write_once()
    ensures { SlavesWriteOnce }
{}
