// The pair of an accepted program does what the program does under its policy: its slave and its monitor write what is expected of
// the program and end as it does, whatever window they have, in whatever order their turns are taken, and for a monitor whose peer
// is any honest one.

ghost use Rattle.pair_laws.specs.AcceptedPairsLaws.{AcceptedPairsAreExpected};

pub use crate::kept_slaves::accepted_slaves_stay;
pub use crate::pair_calls::calls_keep;
pub use crate::pair_start::{
    accepted_monitors_are_well_formed, accepted_pairs_begin, boots_are_well_formed,
    monitors_hosts_serve,
};
use crate::pair_steps::{honest_peers_are_expected, the_pair_ends, the_pair_is_expected};
use c_lower_law::lowering_keeps_the_run;
use half_names_law::checked_programs_place_nulls;
use type_law::programs_are_well_formed;

/// The pair of a checked program that breaks no flow rule comes to what is expected of the program under every policy, with the
/// hosts of every table without faults, every input and every budget, whatever its monitor has beside its own hosts.
pub fn accepted_pairs_are_expected()
    ensures { AcceptedPairsAreExpected }
{
    programs_are_well_formed();
    checked_programs_place_nulls();
    boots_are_well_formed();
    accepted_slaves_stay();
    accepted_pairs_begin();
    calls_keep();
    the_pair_ends();
    the_pair_is_expected();
    honest_peers_are_expected();
    lowering_keeps_the_run();
}
