// The pair of an accepted program begins in the invariant: its halves are halves of the whole, the hosts of all three agree, and
// what both machines show together is where the whole begins.

ghost use Rattle.pair_laws.specs.PairStartLaws.{AcceptedMonitorsAreWellFormed, AcceptedPairsBegin, BootsAreWellFormed, HostsAgreeAtTheStart, MonitorsHostsServe, SlavesOfBootsAreSound};

use half_texts_law::monitors_are_said;
use lowered_code_law::lowered_code_names_what_the_body_names;
use pair_invariant_law::slaves_stay;
use pt_core::boots_add_hosts;
use slave_soundness_law::slaves_begin_sound;
use split_law::{
    accepted_programs_share_nothing, monitors_are_well_formed, slaves_are_well_formed,
};

/// The boot of an accepted program is well formed, with a model for each of the slave's own hosts.
pub fn boots_are_well_formed()
    ensures { BootsAreWellFormed }
{
    accepted_programs_share_nothing();
    slaves_are_well_formed();
    monitors_are_well_formed();
    lowered_code_names_what_the_body_names();
    boots_add_hosts();
}

/// So its slave begins sound.
pub fn slaves_of_boots_are_sound()
    ensures { SlavesOfBootsAreSound }
{
    boots_are_well_formed();
    slaves_begin_sound();
}

/// The monitor of an accepted program is well formed.
pub fn accepted_monitors_are_well_formed()
    ensures { AcceptedMonitorsAreWellFormed }
{
    accepted_programs_share_nothing();
    monitors_are_well_formed();
}

/// Each host that the monitor of an accepted program calls, or that it may be asked for, has a model that may stand for it.
pub fn monitors_hosts_serve()
    ensures { MonitorsHostsServe }
{
    accepted_programs_share_nothing();
    slaves_are_well_formed();
    monitors_are_well_formed();
    lowered_code_names_what_the_body_names();
}

/// The hosts of a table without faults agree for the whole, the slave and the monitor of an accepted program, whatever the monitor
/// has beside its own.
pub fn hosts_agree_at_the_start()
    ensures { HostsAgreeAtTheStart }
{
    accepted_programs_share_nothing();
    slaves_are_well_formed();
    monitors_are_well_formed();
    lowered_code_names_what_the_body_names();
}

/// The slave and the monitor of an accepted program begin live, in a setting of which all is known that the invariant asks, whatever
/// the monitor has beside its own hosts.
pub fn accepted_pairs_begin()
    ensures { AcceptedPairsBegin }
{
    accepted_programs_share_nothing();
    slaves_are_well_formed();
    monitors_are_well_formed();
    lowered_code_names_what_the_body_names();
    monitors_are_said();
    slaves_stay();
}
