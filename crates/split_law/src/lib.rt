//! Both programs into which a program is split are well formed.
#![tactic(auto)]

ghost use Rattle.split_law.specs.Laws.{AcceptedShareNothing, MonitorsAreWellFormed, SlavesAreWellFormed};

use lowered_code_law::{lowered_code_names_what_the_body_names, lowered_programs_are_well_formed};

/// The slave's program is well formed, where its code is that of the lowering.
pub fn slaves_are_well_formed()
    ensures { SlavesAreWellFormed }
{
    lowered_programs_are_well_formed();
    lowered_code_names_what_the_body_names();
}

/// The monitor's program is well formed, where its code is that of the lowering, and names no global
/// that the slave owns.
pub fn monitors_are_well_formed()
    ensures { MonitorsAreWellFormed }
{
    lowered_programs_are_well_formed();
    lowered_code_names_what_the_body_names();
}

/// In a program that breaks no rule, no global is named by the code of both halves.
pub fn accepted_programs_share_nothing()
    ensures { AcceptedShareNothing }
{}
