// What texts come to.
ghost use Rattle.texts_have_outcomes_law.specs.Laws.{ChecksComeToAnOutcome, ClimbsEnd, ClimbsEndWithoutFlows, ProgramsAreJudged, RunsComeToAnOutcome, SplitsComeToAnOutcome, TooManySlotsHaveNoOutcome, TooManySlotsStopNothing};

/// Each well formed program of at most 2^25 slots is accepted, or its flows have faults. It does nothing.
pub fn programs_are_judged()
    ensures { ProgramsAreJudged }
{}

/// A command refuses texts, or they pass all its stages, unless their program has more than 2^25 slots. It does nothing.
pub fn climbs_end()
    ensures { ClimbsEnd }
{}

/// A command that doesn't ask for flows refuses texts, or they pass all its stages. It does nothing.
pub fn climbs_end_without_flows()
    ensures { ClimbsEndWithoutFlows }
{}

/// A command that asks for flows first neither refuses a program of more than 2^25 slots nor lets it pass. It does nothing.
pub fn too_many_slots_stop_nothing()
    ensures { TooManySlotsStopNothing }
{}

/// Each text is accepted, with the lines of its privileged slots, or a stage has faults, unless it is a program
/// of more than 2^25 slots. It does nothing.
pub fn checks_come_to_an_outcome()
    ensures { ChecksComeToAnOutcome }
{}

/// Each text has two halves, or a stage has faults, unless it is a program of more than 2^25 slots. It does
/// nothing.
pub fn splits_come_to_an_outcome()
    ensures { SplitsComeToAnOutcome }
{}

/// A program of more than 2^25 slots comes to no outcome of a check, and to none of a split. It does nothing.
pub fn too_many_slots_have_no_outcome()
    ensures { TooManySlotsHaveNoOutcome }
{}

/// Texts come to a run within a budget of turns, or a stage has faults. It does nothing.
pub fn runs_come_to_an_outcome()
    ensures { RunsComeToAnOutcome }
{}
