//! The lowering keeps the meaning of programs: what an expression comes to in the source's meaning, its
//! lowering comes to in the normal form's, with the same trap at the same place of the text where it traps.
#![tactic(auto)]

ghost use Rattle.c_lower_law.specs.Statements.{LoweringKeepsTheRun};

/// The run of a whole program, lowered, is its run: its events, its end and its turns.
pub fn lowering_keeps_the_run()
    ensures { LoweringKeepsTheRun }
{}
