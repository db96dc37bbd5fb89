//! What a call lends through pointers to const stays as it is: a step of a sound program whose code C can
//! say writes only cells that may be written, and a pointer to no const points to such cells alone.
#![tactic(auto)]

ghost use Rattle.lent_blocks_law.specs.Laws.{ValuesAreLent, PlacesAreLent, LentBlocksStay, LentBlocksStayInRuns, RestLends, StartsAreLent, ResumesAreLent};
ghost use Rattle.lent_blocks_law.specs.Received.{CallsAreLent, BodiesKeepWhatStays};

/// Where each pointer to no const is lent, an expression that fits gives a value of its type in C.
pub fn values_are_lent()
    ensures { ValuesAreLent }
{}

/// A place that fits and isn't const designates an object that may be written.
pub fn places_are_lent()
    ensures { PlacesAreLent }
{}

/// A step changes no cell that may not be written, and leaves each pointer to no const at what may be.
pub fn lent_blocks_stay<G>()
    ensures { LentBlocksStay G }
{}

/// So do any number of steps.
pub fn lent_blocks_stay_in_runs<G>()
    ensures { LentBlocksStayInRuns G }
{}

/// A machine at rest holds no pointer.
pub fn rest_lends()
    ensures { RestLends }
{}

/// A function is entered from outside with arguments that were lent.
pub fn starts_are_lent()
    ensures { StartsAreLent }
{}

/// A call's result goes to an integer variable.
pub fn resumes_are_lent()
    ensures { ResumesAreLent }
{}

/// What a call sends is lent with what comes back as what may be written, so the rest stays as it was sent.
pub fn calls_are_lent()
    ensures { CallsAreLent }
{}

/// A body that is started with what a call sends keeps each received cell that doesn't come back.
pub fn bodies_keep_what_stays<G>()
    ensures { BodiesKeepWhatStays G }
{}
