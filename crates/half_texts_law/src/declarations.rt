// Both halves of a checked program can be declared in C: the names of their texts differ, no function has more
// than 2^64 variables, all marks stand where they may, and C can say their code. So the statements of each
// function, as the judgments meet them in the half's text, mean what the half's do.

ghost use Rattle.half_texts_law.specs.DeclarationsLaws.{AcceptedHalvesAreWritable, AcceptedHalvesKeepTheirMeaning, HalvesAreDeclarable, TreesAreMarked};
ghost use Rattle.half_texts_law.specs.DeclarationsSaid.{AcceptedHalvesAreSaid, MonitorsAreSaid, SlavesAreSaid};

use half_names_law::halves_keep_their_meaning;
use split_law::{
    accepted_programs_share_nothing, monitors_are_well_formed, slaves_are_well_formed,
};
use type_law::programs_are_well_formed;

/// C can say the code of each function of the slave's program.
pub fn slaves_are_said()
    ensures { SlavesAreSaid }
{}

/// C can say the code of each function of the monitor's program.
pub fn monitors_are_said()
    ensures { MonitorsAreSaid }
{}

/// C can say the code of both halves of a checked program that breaks no rule.
pub fn accepted_halves_are_said()
    ensures { AcceptedHalvesAreSaid }
{}

/// In the tree of a program without a fault, what is declared apart has names apart, and all marks stand where they
/// may.
pub fn trees_are_marked()
    ensures { TreesAreMarked }
{}

/// Both halves of such a program can be declared.
pub fn halves_are_declarable()
    ensures { HalvesAreDeclarable }
{
    programs_are_well_formed();
    trees_are_marked();
}

/// Both halves of a program that breaks no rule are sound, can be declared, and their code can be said in C.
pub fn accepted_halves_are_writable()
    ensures { AcceptedHalvesAreWritable }
{
    programs_are_well_formed();
    trees_are_marked();
    slaves_are_well_formed();
    monitors_are_well_formed();
    accepted_programs_share_nothing();
    accepted_halves_are_said();
}

/// The statements of both halves of such a program, judged where they stand in the halves' own trees, mean what
/// the halves' do, if calls do.
pub fn accepted_halves_keep_their_meaning()
    ensures { AcceptedHalvesKeepTheirMeaning }
{
    accepted_halves_are_writable();
    halves_keep_their_meaning();
}
