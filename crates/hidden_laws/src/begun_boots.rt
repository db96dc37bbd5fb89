// What the slave of faultless texts starts from tells nothing of what is privileged.
ghost use Rattle.hidden_laws.specs.BegunBootsLaws.{BegunBootsTellNothingPrivileged, BegunBootsTellOnlyPlaces, BegunBootsTellOwnHostsAlone};

use front_end::a_text_has_one_reading;
use low_views_law::{
    boots_tell_nothing_privileged, boots_tell_only_places, programs_are_the_same_as_themselves,
};

/// Of one program with two tables, policies and inputs, of both of which a pair begins, and that are the same for the slave's own hosts,
/// the slave starts from the same.
pub fn begun_boots_tell_own_hosts_alone()
    ensures { BegunBootsTellOwnHostsAlone }
{
    boots_tell_nothing_privileged();
    programs_are_the_same_as_themselves();
    a_text_has_one_reading();
}

/// Of two lots of texts of which a pair begins, whose programs, tables and inputs are the same for the slave, the slave starts from the
/// same, whatever the privileged bodies, the rows of privileged hosts and the policies are.
pub fn begun_boots_tell_nothing_privileged()
    ensures { BegunBootsTellNothingPrivileged }
{
    boots_tell_nothing_privileged();
}

/// Where the programs differ for the slave in places of the text alone, so does what it starts from.
pub fn begun_boots_tell_only_places()
    ensures { BegunBootsTellOnlyPlaces }
{
    boots_tell_only_places();
}
