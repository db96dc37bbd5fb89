// The two programs into which an accepted program is split are halves of it: sound parts that share no global, where whatever a
// half calls is its own, is a host that it calls itself, or is an entry of the monitor's.

ghost use Rattle.pair_invariant_law.specs.AcceptedLaws.{AcceptedHalves};

use lowered_code_law::lowered_code_names_what_the_body_names;
use split_law::{
    accepted_programs_share_nothing, monitors_are_well_formed, slaves_are_well_formed,
};

/// Of a well-formed program that breaks no rule, the slave's program and the monitor's are halves of the whole.
pub fn accepted_programs_have_halves()
    ensures { AcceptedHalves }
{
    accepted_programs_share_nothing();
    slaves_are_well_formed();
    monitors_are_well_formed();
    lowered_code_names_what_the_body_names();
}
