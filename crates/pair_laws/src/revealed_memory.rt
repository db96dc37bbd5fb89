// What the two sides of an accepted program's pair hold is what the whole program holds: wherever the pair has caught up, the
// slave's memory, with the monitor's values in the place of handles, beside the monitor's globals, is the memory of the whole
// program behind so many steps of its run.

ghost use Rattle.pair_laws.specs.RevealedMemoryLaws.{PairsRevealTheWhole};

use crate::kept_slaves::accepted_slaves_stay;
use crate::pair_calls::calls_keep;
use crate::pair_start::{accepted_pairs_begin, boots_are_well_formed};
use crate::pair_steps::the_pair_keeps;
use c_lower_law::lowering_keeps_the_run;
use half_names_law::checked_programs_place_nulls;
use type_law::programs_are_well_formed;

/// At every step of the pair, whatever the window is and whoever takes which turn.
pub fn pairs_reveal_the_whole()
    ensures { PairsRevealTheWhole }
{
    programs_are_well_formed();
    checked_programs_place_nulls();
    boots_are_well_formed();
    accepted_slaves_stay();
    accepted_pairs_begin();
    calls_keep();
    the_pair_keeps();
    lowering_keeps_the_run();
}
