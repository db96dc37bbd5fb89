// What holds of runs of lifted programs.
ghost use Rattle.lifted_runs_law.specs.Laws.{LiftingChangesNothingElse, NotesChangeNothing};

/// The noted run of any program has the end and the turns of its run, and its events, once what new functions leave is
/// taken out of both. It does nothing.
pub fn notes_change_nothing()
    ensures { NotesChangeNothing }
{}

/// Let a noted run of the lifted program, with n turns, make k calls of new functions, and none for which there was no
/// room. Then the program's run with n - k turns has the same events once the calls of new functions are taken out, the
/// same end and k turns fewer. It does nothing.
pub fn lifting_changes_nothing_else()
    ensures { LiftingChangesNothingElse }
{}
