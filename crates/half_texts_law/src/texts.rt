// The texts of both halves of a checked program that breaks no rule read back as the trees that were printed, and
// the type judgments find no fault in these. They take a function that is only declared for a host, which takes
// no pointer: in the slave's half a privileged function may take one, so there it is set aside. In the monitor's
// half such functions are hosts, so its text has the half's meaning with nothing given of them.

ghost use Rattle.half_texts_law.specs.TextsLaws.{AcceptedMonitorsRunByThemselves, AcceptedTextsReadBack, MonitorsDeclareHosts};

use crate::calls::{half_host_starts_agree, half_hosts_agree};
use crate::declarations::{accepted_halves_are_writable, accepted_halves_keep_their_meaning};
use c_printer_law::what_is_printed_reads_back;
use half_names_law::{halves_have_no_fault, slaves_have_no_type_fault};
use half_trees_law::{monitor_trees_are_plain, slave_trees_are_plain};
use split_law::{
    accepted_programs_share_nothing, monitors_are_well_formed, slaves_are_well_formed,
};
use type_law::programs_are_well_formed;

/// Each function without a body in the monitor's program is a host.
pub fn monitors_declare_hosts()
    ensures { MonitorsDeclareHosts }
{
    monitors_are_well_formed();
}

/// Both texts of a checked program that breaks no rule have tokens that derive the trees of the halves, positions
/// aside, and what the type judgments say of these trees.
pub fn accepted_texts_read_back()
    ensures { AcceptedTextsReadBack }
{
    programs_are_well_formed();
    slaves_are_well_formed();
    monitors_are_well_formed();
    accepted_programs_share_nothing();
    accepted_halves_are_writable();
    slave_trees_are_plain();
    monitor_trees_are_plain();
    what_is_printed_reads_back();
    halves_have_no_fault();
    slaves_have_no_type_fault();
    monitors_declare_hosts();
}

/// The monitor's text does what the monitor's half does, with the calls of both meanings.
pub fn accepted_monitors_run_by_themselves()
    ensures { AcceptedMonitorsRunByThemselves }
{
    programs_are_well_formed();
    accepted_programs_share_nothing();
    accepted_halves_are_writable();
    accepted_halves_keep_their_meaning();
    half_hosts_agree();
    half_host_starts_agree();
    monitors_declare_hosts();
}
