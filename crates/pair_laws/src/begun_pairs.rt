// What the slave and the monitor of faultless texts start from is well formed, and the pair of both does what is expected of the
// program that the texts give.

ghost use Rattle.pair_laws.specs.BegunPairsLaws.{BegunBootsAreWellFormed, BegunMonitorsAreWellFormed, BegunMonitorsHostsServe, BegunPairsAreExpected};

use crate::accepted_pairs::{
    accepted_monitors_are_well_formed, accepted_pairs_are_expected, boots_are_well_formed,
    monitors_hosts_serve,
};
pub use crate::accepted_pairs::{accepted_pairs_begin, accepted_slaves_stay, calls_keep};

/// The boot with which a pair begins is well formed, with a model for each of the slave's own hosts.
pub fn begun_boots_are_well_formed()
    ensures { BegunBootsAreWellFormed }
{
    boots_are_well_formed();
}

/// So is the program of its monitor.
pub fn begun_monitors_are_well_formed()
    ensures { BegunMonitorsAreWellFormed }
{
    accepted_monitors_are_well_formed();
}

/// Each host that the monitor of a pair that begins calls, or that it may be asked for, has a model that may stand for it.
pub fn begun_monitors_hosts_serve()
    ensures { BegunMonitorsHostsServe }
{
    monitors_hosts_serve();
}

/// A pair that begins writes and ends as its program does under its policy, with every input of bytes and every budget, whatever its
/// monitor has beside its own hosts.
pub fn begun_pairs_are_expected()
    ensures { BegunPairsAreExpected }
{
    accepted_pairs_are_expected();
}
