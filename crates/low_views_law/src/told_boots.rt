// The boot tells nothing of what is privileged: what the slave starts from is made of the slave's own part of the program, and of what
// stands for its own hosts.

ghost use Rattle.low_views_law.specs.ToldBootsLaws.{BootsTellNothingPrivileged, BootsTellOnlyPlaces, BootsTellOwnHostsAlone, ProgramsAreTheSameAsThemselves};

use lowered_code_law::{
    lowered_code_names_what_the_body_names, lowering_sees_one_body, places_alone_follow_places,
};
use split_law::accepted_programs_share_nothing;

/// Of an accepted program, the slave starts from the same whatever stands for hosts that aren't its own, and whatever the input is
/// that only these read.
pub fn boots_tell_own_hosts_alone()
    ensures { BootsTellOwnHostsAlone }
{
    lowered_code_names_what_the_body_names();
    accepted_programs_share_nothing();
}

/// Of two accepted programs that are the same for the slave, with hosts that are the same for it, the slave starts from the same,
/// whatever the privileged bodies, the monitor's globals and functions, and the privileged hosts are.
pub fn boots_tell_nothing_privileged()
    ensures { BootsTellNothingPrivileged }
{
    lowering_sees_one_body();
    lowered_code_names_what_the_body_names();
    accepted_programs_share_nothing();
}

/// Where the two programs differ for the slave in places of the text alone, so does what it starts from.
pub fn boots_tell_only_places()
    ensures { BootsTellOnlyPlaces }
{
    lowering_sees_one_body();
    lowered_code_names_what_the_body_names();
    accepted_programs_share_nothing();
    places_alone_follow_places();
}

/// A well-formed program is the same as itself for its slave.
pub fn programs_are_the_same_as_themselves()
    ensures { ProgramsAreTheSameAsThemselves }
{}
