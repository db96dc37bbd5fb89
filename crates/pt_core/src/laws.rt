// Laws of the normal form.
ghost use Rattle.pt_core.specs.BootLaw.{BootsAddHosts};
ghost use Rattle.pt_core.specs.ServingLaw.{WholeMayServe};

use crate::{CoreFn, MonitorProgram, SlaveProgram};

/// A boot is well formed exactly where the slave's program is and its list of hosts is: in order, each
/// with a model that fits, and none wanting that is called and isn't privileged. It holds of any test
/// of what fits.
pub fn boots_add_hosts()
    ensures { BootsAddHosts }
{}

/// A program whose functions have all parameters of their signatures may be the monitor's, its
/// entries aside, where the privileged functions that it calls are among its functions.
pub fn whole_programs_may_serve()
    ensures { WholeMayServe }
{}

// what threads may share
fn is_shared<T: Send + Sync>(_shared: &T) {}

/// Code, and the programs of both halves, may be shared by threads; their types alone decide it. It does
/// nothing.
pub fn programs_are_shared(function: &CoreFn, slave: &SlaveProgram, monitor: &MonitorProgram) {
    is_shared(function);
    is_shared(slave);
    is_shared(monitor);
}
