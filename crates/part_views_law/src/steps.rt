// A part of a program steps as the whole does: under a view, where the part's blocks lie in the whole and what its handles stand
// for, a step of a slave or of a served body is the step of the whole program, or the whole's budget is spent by the turns that
// others took. A program whose calls have further arguments computes with handles where it does without them.

ghost use Rattle.part_views_law.specs.StepsAdded.{AddedComputeAlike, PointersArePlain};
ghost use Rattle.part_views_law.specs.StepsInstances.{BodiesStand, SlavesStand};
ghost use Rattle.part_views_law.specs.StepsLaws.{PartsStand, PartsStep};
ghost use Rattle.part_views_law.specs.StepsOutward.{PartsLead};
ghost use Rattle.part_views_law.specs.StepsRuns.{PartsRun};

/// What the whole steps to is what is seen of the part's step.
pub fn parts_step<H, G, K>()
    ensures { PartsStep H G K }
{}

/// A machine of a part that is shown in the whole's stays so.
pub fn parts_stand<H, G, K>()
    ensures { PartsStand H G K }
{}

/// What the whole comes to in so many steps is what is seen of the part's run.
pub fn parts_run<H, G, K>()
    ensures { PartsRun H G K }
{}

/// Where a part asks for a call, the whole makes it, and where its outermost function returns, it returns in the whole.
pub fn parts_lead<H, G>()
    ensures { PartsLead H G }
{}

/// With further arguments of calls a step computes with a handle where it does without them.
pub fn added_compute_alike<G>()
    ensures { AddedComputeAlike G }
{}

/// Pointers to globals are no handles, and meet none.
pub fn pointers_are_plain()
    ensures { PointersArePlain }
{}

/// A slave's machine that fits by a store is shown in the whole's.
pub fn slaves_stand()
    ensures { SlavesStand }
{}

/// The machine of a body that a monitor serves is shown in the whole's.
pub fn bodies_stand()
    ensures { BodiesStand }
{}
